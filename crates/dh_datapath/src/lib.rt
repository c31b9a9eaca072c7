//! The wires of a plan's values: of each operation of a block one wire, which shows its value.
//! Takes a plan, the ports that its operations use and a circuit with the plan's registers, and adds the wires
//! (`push_blocks`): of each register, of operators, conversions, choices and guards, and of what ports hold by a select.
//! Stands on `dh_cells` and `dh_lower`.
#![tactic(auto)]

mod blocks;
mod forms;
mod reads;
mod registers;
mod rows;
mod values;

pub use blocks::{PlanWires, push_blocks};
pub use forms::{kind_given, push_form, push_operation};
pub use reads::{
    port_of_bank, push_bank, push_bank_choice, push_bank_test, push_banks, push_read,
    push_selected_bank,
};
pub use registers::{RegisterWires, push_registers};
pub use rows::{RowWires, push_row};
pub use values::{kind_of, push_computed, push_selected, push_turned, push_under_guard, wire_of};
