//! The laws of texts: what is printed is read back, a text stands for one thing, and no text leaves out what it is of.

pub use plir_attr_text::laws::{
    attr_is_read_back, text_stands_for_its_attribute, text_stands_for_one_attribute,
    text_stands_for_one_type, written_type_has_one_handle,
};
pub use plir_print::laws::texts_leave_out_no_level;
pub use plir_read::laws::{
    fault_is_decided_at_its_cause, levels_come_first, root_comes_first,
    text_stands_for_one_operation, text_stands_or_meets_one_fault,
};
pub use plir_roundtrip::laws::{
    new_modules_can_be_read_back, op_is_read_back, text_stands_for_its_operation,
};
