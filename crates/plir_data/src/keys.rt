//! The keys of attributes that operations and blocks of the builtin dialect hold.

/// The key that a symbol's name stands under.
pub const ATTR_KEY_SYM_NAME: &'static str = "builtin_sym_name";

/// The key that a function's type stands under.
pub const ATTR_KEY_BUILTIN_FUNC_TYPE: &'static str = "builtin_func_type";

/// The key that a constant's value stands under.
pub const ATTR_KEY_CONSTANT_VALUE: &'static str = "builtin_constant_value";

/// The key that the names of results and arguments stand under.
pub const ATTR_KEY_GIVEN_NAMES: &'static str = "builtin_given_names";
