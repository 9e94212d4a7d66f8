//! The words of the kinds in scripts.
use crate::kinds::FlowKind;
use plir_scripts::ScriptKind;

impl ScriptKind for FlowKind {
    fn of_word(word: &str) -> Option<FlowKind> {
        match word {
            "call" => Some(FlowKind::Call),
            "call-value" => Some(FlowKind::CallValue),
            "return" => Some(FlowKind::Return),
            "cond-branch" => Some(FlowKind::CondBranch),
            "scope" => Some(FlowKind::Scope),
            "leave" => Some(FlowKind::Leave),
            _ => None,
        }
    }
}
