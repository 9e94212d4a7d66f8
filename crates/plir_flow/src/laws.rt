//! Laws of segments and of region edges: each function that takes no context does nothing, and its contract is the law.
ghost use Rattle.std.specs.Prelude.{◌≡◌, ◌≢◌, ◌<◌, ◌≤◌, ◌↔◌, ◌+◌, ℕ, List, Some, IsTrue, length, map, sum};
ghost use Rattle.plir_core.specs.declared.ptr.IRNode.{IRNode};
ghost use Rattle.plir_core.specs.declared.ptr.Operation.{Operation as OperationKind};
ghost use Rattle.plir_core.specs.declared.ptr.Ptr.{Ptr as AnyPtr};
ghost use Rattle.plir_core.specs.declared.value.Value.{Value as AnyValue};
ghost use Rattle.plir_core.specs.ContextView.{ContextView, IsLive, operands_of, successors_of};
ghost use Rattle.plir_flow.specs.Branches.{num_successors, operands_within};
ghost use Rattle.plir_flow.specs.EdgeEquality.{same_edge};
ghost use Rattle.plir_flow.specs.RegionEdges.{EdgeView};
ghost use Rattle.plir_flow.specs.Segments.{in_segments, flatten, segment_at, edit_at, SegmentEdit, put_last, take_last};
ghost use Rattle.plir_flow.specs.Segments.{num_segments};
ghost use Rattle.plir_flow.specs.Segments.{segment_size, segment_places, segments_of, IsSegmented};
ghost use Rattle.plir_flow.specs.Segments.{CanBePopped, IsKeptBySegments, PopsWhatWasPushed};

use plir_core::{Context, Operation, Ptr};
use plir_data::OpSet;

/// Where the sum of sizes is the number of values, the values in segments are the one list of lists with these sizes
/// and this flattening; where it isn't, there is none.
pub fn segments_are_the_one_list()
    ensures sizes { (ns : List ℕ) (vs : List AnyValue) → sum ns ≡ length vs → map length (in_segments ns vs) ≡ ns }
    ensures values { (ns : List ℕ) (vs : List AnyValue) → sum ns ≡ length vs → flatten (in_segments ns vs) ≡ vs }
    ensures one { (segs : List (List AnyValue)) → in_segments (map length segs) (flatten segs) ≡ segs }
    ensures sum { (segs : List (List AnyValue)) → sum (map length segs) ≡ length (flatten segs) }
{}

/// A value that is put at the end of a list and taken off leaves the same list; so it does in a segment.
pub fn put_and_taken_off()
    ensures list { (xs : List AnyValue) (v : AnyValue) → take_last (put_last v xs) ≡ xs }
    ensures segment { (i : ℕ) (v : AnyValue) (segs : List (List AnyValue)) →
        edit_at i take_last (edit_at i (put_last v) segs) ≡ segs }
{}

/// An edit of one segment changes that segment, and no other.
pub fn edits_of_one_segment()
    ensures count { (i : ℕ) (f : SegmentEdit) (segs : List (List AnyValue)) → length (edit_at i f segs) ≡ length segs }
    ensures here { (i : ℕ) (f : SegmentEdit) (segs : List (List AnyValue)) → i < length segs →
        segment_at (edit_at i f segs) i ≡ f (segment_at segs i) }
    ensures others { (i j : ℕ) (f : SegmentEdit) (segs : List (List AnyValue)) → j ≢ i →
        segment_at (edit_at i f segs) j ≡ segment_at segs j }
{}

/// What depends on an operation's successors alone, as the number of segments that a switch expects, one for each
/// successor and some more, doesn't depend on its segments. So an implementer of [`crate::OperandSegmentInterface`] may
/// expect it.
pub fn segments_keep_successors<D: OpSet>()
    ensures successors { (op : AnyPtr OperationKind) → IsKeptBySegments
        (λ (s : ContextView D.Kind D.Attr D.Ty). successors_of s op) op }
    ensures one_for_each { (n : ℕ) (op : AnyPtr OperationKind) →
        IsKeptBySegments (λ (s : ContextView D.Kind D.Attr D.Ty). Some (num_successors s op + n)) op }
{}

/// The operands in a segment stand in a row among all operands.
pub fn segments_stand_in_a_row<D: OpSet>(ctx: &Context<D>, op: Ptr<Operation>)
    requires live { IsLive ctx.now (IRNode.Operation op) }
    requires segmented { IsSegmented ctx.now op }
    ensures within { (i : ℕ) → operands_within ctx.now op (segment_places ctx.now op i) ≡ segment_at
        (segments_of ctx.now op) i }
    ensures sizes { (i : ℕ) → length (segment_at (segments_of ctx.now op) i) ≡ segment_size ctx.now op i }
    ensures inside { (i : ℕ) → (segment_places ctx.now op i).1 ≤ length (operands_of ctx.now op) }
    ensures count { length (segments_of ctx.now op) ≡ num_segments ctx.now op }
{
    ctx.stands();
}

/// What is pushed to a segment is what is popped from it next, and then segments, sizes and operands are as before the
/// push. One wants it where the clause `ok` of `push_to_segment` leads from one state to a second, and the clauses
/// `value` and `after` of `pop_from_segment` from there to a third. What was pushed to can be popped from.
pub fn push_then_pop<D: OpSet>()
    ensures filled { (s t : ContextView D.Kind D.Attr D.Ty) (op : AnyPtr OperationKind) → CanBePopped s t op }
    ensures back { (s t u : ContextView D.Kind D.Attr D.Ty) (op : AnyPtr OperationKind) → PopsWhatWasPushed s t u op }
{}

/// Edges are equal exactly if they are the same.
pub fn equal_edges_are_the_same()
    ensures { (d e : EdgeView) → IsTrue (same_edge d e) ↔ (d ≡ e) }
{}
