//! How room for nodes is used up.
ghost use Rattle.plir_core.specs.ContextView.{ContextView};
ghost use Rattle.plir_core.specs.WellFormed.{IsWellFormed};
ghost use Rattle.plir_core.specs.Room.{HaveCome, IsFullFor, NodeCount, together};

use plir_data::OpSet;

/// Nodes that have come had room, and what has no room behind them had none together with them before. So where there
/// is room for two trees, the second is not refused for want of it once the first has been copied.
pub fn room_is_used_up<D: OpSet>()
    ensures had { (s t : ContextView D.Kind D.Attr D.Ty) (c : NodeCount) → IsWellFormed D.attr_handles t →
        HaveCome s.nodes t.nodes c → IsFullFor s.nodes c → ⊥ }
    ensures left { (s t : ContextView D.Kind D.Attr D.Ty) (c d : NodeCount) → HaveCome s.nodes t.nodes c →
        IsFullFor t.nodes d → IsFullFor s.nodes (together c d) }
{}
