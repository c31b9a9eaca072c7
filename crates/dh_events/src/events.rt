//! What happens in a program in order of evaluation, and where it is noted.

ghost use Rattle.std.specs.Prelude.{◌≡◌, true, false, [], ◌∷◌, IfOk, OnOk};
ghost use Rattle.dh_tree.specs.Seen.{term_seen};
ghost use Rattle.dh_events.specs.Elements.{IsElementOf, IsNoted, IsBoundaryEvent, IsTouch, StaysNoted, StaysRead};
ghost use Rattle.dh_events.specs.Incidents.{assigned, touches};
ghost use Rattle.dh_events.specs.Noted.{event_seen, AddsIncidents};

use crate::known::Known;
use crate::structures::Structures;
use crate::tables::set_at;
use dh_base::NoMemory;
use dh_tree::Expr;
use std::alloc::Global;

/// What happens at a moment.
#[derive(Clone, Copy)]
pub enum Event<'a> {
    /// An access of an element. Small fields stand first, beside the tag.
    Touch {
        /// Whether it writes.
        writes: bool,
        /// The Straight phase in which it stands, by the number of the phase's first command.
        phase: u32,
        /// The innermost unrolled loop round it, by its number.
        round: Option<u32>,
        /// The access.
        access: &'a Expr,
        /// The structure of its indices, of a read; none where they name what stands for nothing.
        element: Option<usize>,
        /// The moment behind the last assignment to a variable in its indices, of a read; 0 before
        /// any.
        newest: usize,
    },
    /// A variable gets a value.
    Assigned {
        /// The variable.
        entity: Option<u32>,
    },
    /// An arm of an `if` begins.
    ArmBegins,
    /// An arm ends.
    ArmEnds,
    /// Parts begin of which no two accesses meet.
    Begins,
    /// The next of these parts begins.
    Next,
    /// The parts end.
    Ends,
}

/// Where an access stands.
#[derive(Clone, Copy)]
pub struct Site {
    /// Its Straight phase.
    pub phase: u32,
    /// The innermost unrolled loop round it.
    pub round: Option<u32>,
}

/// What is noted of a program.
#[derive(Drop)]
pub struct Notes<'a> {
    /// What happens, in order.
    pub events: Vec<Event<'a>>,
    /// The structures of indices.
    pub structures: Structures,
    /// Of each variable the moment behind its last assignment.
    pub clocks: Vec<usize>,
}

impl<'a> Notes<'a> {
    /// Nothing is noted, with room for what mostly happens in so many commands: two events each.
    ///
    /// # Errors
    ///
    /// `NoMemory` where an allocation was refused.
    pub fn for_commands(alloc: Global, commands: usize) -> Result<Notes<'a>, NoMemory>
        ensures empty { IfOk result (λ notes. notes.events.items ≡ []) }
        ensures noted { IfOk result (λ notes. IsNoted notes) }
    {
        let events = Vec::with_capacity(alloc, commands.saturating_mul(2))?;
        Ok(Notes {
            events,
            structures: Structures::new(alloc),
            clocks: Vec::new(alloc),
        })
    }

    /// Notes one more event.
    pub fn note(&mut self, event: Event<'a>) -> Result<(), NoMemory>
        ensures adds { OnOk result (AddsIncidents self.old self.new (event_seen event.entry ∷ [])) }
        ensures noted { OnOk result (IsBoundaryEvent event.entry → StaysRead self.old self.new) }
        ensures touched { OnOk result (IsTouch self.old event.entry → StaysRead self.old self.new) }
    {
        Ok(self.events.push(event)?)
    }

    /// Notes an assignment.
    pub fn assign(&mut self, entity: Option<u32>) -> Result<(), NoMemory>
        ensures adds { OnOk result (AddsIncidents self.old self.new (assigned entity ∷ [])) }
        ensures noted { OnOk result (StaysNoted self.old self.new) }
    {
        self.events.push(Event::Assigned { entity })?;
        if let Some(entity) = entity {
            set_at(&mut self.clocks, entity, self.events.len())?;
        }
        Ok(())
    }

    /// Notes a read of an element of which this is known.
    pub fn read(&mut self, site: Site, access: &'a Expr, element: Known) -> Result<(), NoMemory>
        ensures adds { OnOk result (AddsIncidents self.old self.new
            (touches (term_seen access.now) false site ∷ [])) }
        ensures noted { OnOk result (IsElementOf self.old access.now element
            → StaysRead self.old self.new) }
    {
        self.note(Event::Touch {
            writes: false,
            phase: site.phase,
            round: site.round,
            access,
            element: element.structure,
            newest: element.newest,
        })
    }

    /// Notes a write.
    pub fn write(&mut self, site: Site, access: &'a Expr) -> Result<(), NoMemory>
        ensures adds { OnOk result (AddsIncidents self.old self.new
            (touches (term_seen access.now) true site ∷ [])) }
        ensures noted { OnOk result (StaysRead self.old self.new) }
    {
        self.note(Event::Touch {
            writes: true,
            phase: site.phase,
            round: site.round,
            access,
            element: None,
            newest: 0,
        })
    }
}
