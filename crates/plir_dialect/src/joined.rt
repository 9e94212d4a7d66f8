//! Two dialects in one op set.

ghost use Rattle.plir_dialect.specs.Sides.{AreApart};

use crate::dialect::Dialect;
use crate::one_of::OneOf;
use crate::own_attr::OwnAttr;
use crate::own_type::OwnType;
use plir_data::OwnKind;

/// An op set that is made of parts, as each [`Dialect`] is.
pub trait Parts {
    /// Its kinds of operations.
    type Kinds: OwnKind;

    /// Its attributes.
    type Attrs: OwnAttr;

    /// Its types.
    type Types: OwnType;
}

impl<K: OwnKind, A: OwnAttr, T: OwnType> Parts for Dialect<K, A, T> {
    type Kinds = K;

    type Attrs = A;

    type Types = T;
}

/// Two dialects that are joined. Whoever joins them writes this for a type of their own, which names the pair, and
/// shows that no id of the one is an id of the other.
pub trait Joining {
    /// The first dialect.
    type First: Parts;

    /// The second.
    type Second: Parts;

    // Ids tell the two apart.
    ghost kind_ids_differ: { AreApart Self.First.Kinds.id Self.Second.Kinds.id };

    ghost attr_ids_differ: { AreApart Self.First.Attrs.id Self.Second.Attrs.id };

    ghost type_ids_differ: { AreApart Self.First.Types.id Self.Second.Types.id };
}

/// The op set of the two dialects that a [`Joining`] names: kinds, attributes and types are each [`OneOf`] two, and
/// what is asked of one is answered by its own side. It is made of parts in its turn, so a third dialect can be joined.
pub type Joined<J> = Dialect<
    OneOf<<<J as Joining>::First as Parts>::Kinds, <<J as Joining>::Second as Parts>::Kinds>,
    OneOf<<<J as Joining>::First as Parts>::Attrs, <<J as Joining>::Second as Parts>::Attrs>,
    OneOf<<<J as Joining>::First as Parts>::Types, <<J as Joining>::Second as Parts>::Types>,
>;
