//! What runs nets for the program. The program is generic in its engine: it can't tell a real one
//! from a test's, so what it reports is what the engine answered.

ghost use Rattle.std.specs.Prelude.{◌≡◌, ◌≤◌, [], true, OnOk, OnErr, IfOk, vec_len};
ghost use Rattle.std.specs.List.{AllByRecursion};
ghost use Rattle.dh_tree.specs.Tables.{Fits};
ghost use Rattle.dh_net.specs.Valid.{IsValid};
ghost use Rattle.dh_app.specs.Engines.{IsAnswer, IsFinishOf, Asks, AnswersTo, AreRuns, ExactRuns};

use dh_base::{NoMemory, Outcome};
use dh_net::Net;
use dh_sim::run_net;
use dh_tree::Memories;
use std::alloc::Global;
use std::marker::Model;

/// How the run of a net ended.
#[derive(Drop)]
pub struct Finish {
    /// Whether it ended, or in which fault, or was going on by the limit.
    pub outcome: Outcome,
    /// Logical steps that ended without fault.
    pub steps: u64,
    /// Clocks.
    pub clocks: u64,
    /// The memories after these clocks.
    pub memories: Memories,
}

/// What runs nets.
pub trait Engine {
    ghost use Rattle.dh_app.specs.Engines.{EngineSeen, Asks, AnswersTo, ExactRuns};

    /// What a clause sees of it.
    ghost seen: { Self → EngineSeen };

    /// Runs a net from each of these memories, under a limit of clocks. Each call is counted. After
    /// want of memory the answers are as before.
    fn finish(&mut self, net: &Net, sets: Vec<Memories>, limit: u64) -> Result<(), NoMemory>
        requires valid { IsValid net.now }
        requires few { vec_len sets ≤ 64 }
        requires fit { AllByRecursion (Fits net.now.table) sets.items }
        ensures asks { Asks (seen self.old) (seen self.new) }
        ensures answers { OnOk result (AnswersTo net.now sets.items (seen self.new).answers) }
        ensures right { ExactRuns (seen self.old) (seen self.new) net.now limit sets.items result }
        ensures unchanged { OnErr result ((seen self.new).answers ≡ (seen self.old).answers) };

    /// The answers of the last call that succeeded, one for each of its memories, in their order.
    fn answers(&self) -> &[Finish]
        ensures { result.now ≡ (seen self.now).answers };
}

/// The engine of the program: runs nets by the simulator, one set of memories after the other. It is
/// exact. Its count of calls stays at 2^64 - 1 once it is there.
#[derive(Drop)]
pub struct NetEngine {
    alloc: Global,
    asked: u64,
    answers: Vec<Finish>,
}

impl Model for NetEngine {
    ghost use Rattle.std.specs.Prelude.{true};
    ghost use Rattle.dh_app.specs.Engines.{EngineSeen};

    ghost Value = { EngineSeen };

    ghost view = { λ e. record { exact = true; asked = e.asked; answers = e.answers.items } };
}

impl NetEngine {
    /// An engine that was not asked yet, and has no answers. Takes no memory; `alloc` is kept for the
    /// answers.
    pub fn new(alloc: Global) -> NetEngine
        ensures { result ≡ record { exact = true; asked = 0; answers = [] } }
    {
        NetEngine {
            alloc,
            asked: 0,
            answers: Vec::new(alloc),
        }
    }
}

impl Engine for NetEngine {
    ghost seen = { λ e. e };

    fn finish(&mut self, net: &Net, sets: Vec<Memories>, limit: u64) -> Result<(), NoMemory> {
        self.asked = self.asked.saturating_add(1);
        let answers = run_all(self.alloc, net, sets, limit)?;
        self.answers = answers;
        Ok(())
    }

    fn answers(&self) -> &[Finish] {
        self.answers.as_slice()
    }
}

/// The runs of a net from each of these memories.
fn run_all(
    alloc: Global,
    net: &Net,
    sets: Vec<Memories>,
    limit: u64,
) -> Result<Vec<Finish>, NoMemory>
    requires valid { IsValid net.now }
    requires fit { AllByRecursion (Fits net.now.table) sets.items }
    ensures answers { IfOk result (λ v. AnswersTo net.now sets.items v.items) }
    ensures right { IfOk result (λ v. AreRuns net.now limit sets.items v.items) }
{
    let mut answers = Vec::with_capacity(alloc, sets.len())?;
    for memories in sets {
        let answer = run_one(alloc, net, memories, limit)?;
        answers.push(answer)?;
    }
    Ok(answers)
}

/// The run of a net from these memories.
fn run_one(alloc: Global, net: &Net, memories: Memories, limit: u64) -> Result<Finish, NoMemory>
    requires valid { IsValid net.now }
    requires fits { Fits net.now.table memories }
    ensures answer { IfOk result (λ f. IsAnswer net.now f) }
    ensures right { IfOk result (λ f. IsFinishOf net.now memories limit f) }
{
    let (end, memories) = run_net(alloc, net, memories, limit)?;
    Ok(Finish {
        outcome: end.outcome,
        steps: end.steps,
        clocks: end.clocks,
        memories,
    })
}
