//! The registers of the net of a plan: their widths, where they stand first, and the wires that they take.

ghost use Rattle.std.specs.Prelude.{◌≡◌, length, IfOk};
ghost use Rattle.dh_build.specs.BuiltNets.{nexts_of};
ghost use Rattle.dh_build.specs.BuiltParts.{AreNetRegisters};

use dh_base::{Items, NoMemory};
use dh_control::Control;
use dh_net::Register;
use std::alloc::Global;

/// Registers of these widths, first values and next wires.
pub fn list_registers(
    alloc: Global,
    widths: &[u8],
    initials: &[u64],
    nexts: &[u64],
) -> Result<Items<Register>, NoMemory>
    requires initials { length initials.now ≡ length widths.now }
    requires nexts { length nexts.now ≡ length widths.now }
    ensures { IfOk result (λ rs. AreNetRegisters widths.now initials.now nexts.now rs) }
{
    let mut registers = Items::new(alloc);
    for i in 0..widths.len() {
        registers.push(Register {
            width: widths[i],
            initial: initials[i],
            next: nexts[i],
        })?;
    }
    Ok(registers)
}

/// The wires that the registers of a net take, by its control.
pub fn list_nexts(alloc: Global, control: &Control) -> Result<Vec<u64>, NoMemory>
    requires { length control.now.results.state ≡ 1 }
    ensures { IfOk result (λ nexts. nexts.items ≡ nexts_of control.now) }
{
    let state = control.results.state.as_slice()[0];
    let own = [
        control.nexts.clock,
        control.outcome.verdict.commit,
        control.nexts.fault,
        state,
    ];
    let mut nexts = Vec::from_slice(alloc, &own)?;
    nexts.extend_from_slice(control.results.news.as_slice())?;
    Ok(nexts)
}
