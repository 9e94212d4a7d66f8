//! Numbers below a bound, and the texts of refusals.
use plir_core::{LessThanN, NodeErr};
use std::test::Fail;

#[test]
fn numbers_below_a_bound(rt: HostRuntime) {
    assert_eq!(rt; LessThanN::<2>::new(0).map(LessThanN::i), Some(0));
    assert_eq!(rt; LessThanN::<2>::new(1).map(LessThanN::i), Some(1));
    assert_eq!(rt; LessThanN::<2>::new(2), None);
    assert_eq!(rt; LessThanN::<0>::new(0), None);
}

#[test]
fn refusals_have_texts(rt: HostRuntime) -> Result<(), Fail> {
    let alloc = rt.alloc();
    let memory = format!(in alloc; "{}", NodeErr::Memory)?;
    assert_eq!(rt; memory.as_str(), "out of memory");
    let nodes = format!(in alloc; "{}", NodeErr::TooManyNodes)?;
    assert_eq!(rt; nodes.as_str(), "too many nodes");
    Ok(())
}
