//! Lists of the values of a sort up to a size, and of the instances of an entry of a menu by given
//! values, and the lines of a session that ask for them (ISO 8807:1989, data part; Baader and
//! Nipkow, "Term Rewriting and All That", 4.2). What a line comes to is one thing.
#![tactic(auto)]

pub mod choices;
pub mod instance_lines;
pub mod instances;
pub mod labels;
pub mod laws;
pub mod limits;
pub mod line_cases;
pub mod line_laws;
pub mod list_fault;
pub mod refusals;
pub mod trials;
pub mod tuples;
pub mod value;
pub mod value_lines;
pub mod values;

pub use choices::values_of_each;
pub use event_offers::Entry;
pub use instance_lines::push_instance_list;
pub use instances::instances_of;
pub use labels::instance_label;
pub use list_fault::ListFault;
pub use path_order::Rules;
pub use value_lines::push_value_list;
pub use values::values_of;
