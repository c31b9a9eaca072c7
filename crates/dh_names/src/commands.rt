//! The names within commands, and the forms that are not built.

ghost use Rattle.std.specs.Prelude.{◌≡◌, ◌<◌, IfOk, MatchResult};
ghost use Rattle.dh_tree.specs.Seen.{action_seen, action_form_seen, part_seen, maybe_block_seen};
ghost use Rattle.dh_tree.specs.NameCounts.{declared_in, declared_in_form, declared_in_other, declared_in_actions};
ghost use Rattle.dh_names.specs.NotBuilt.{KeepsCommand, KeepsForm, KeepsOptional, KeepsPart};
ghost use Rattle.dh_names.specs.Walks.{is_blocks, NumbersCommand, NumbersForm, NumbersInner, NumbersOptional, NumbersListed, NumbersPart};

use crate::forms::{keep_second, keep_unbuilt};
use crate::walks::NameWalk;
use dh_base::{NoMemory, Place};
use dh_tree::{Breach, Command, CommandForm, Sort, has_dashes};
use std::alloc::Global;

impl NameWalk {
    /// Gives the names of a command their numbers. Names that a block declares stay visible. Keeps the
    /// first form that is not built, and answers whether the command holds a `---`, a loop or a call.
    #[cycle(commands)]
    pub fn command(
        &mut self,
        alloc: Global,
        unbuilt: &mut Option<Breach>,
        command: &mut Command,
    ) -> Result<bool, NoMemory>
        ensures names { MatchResult result
            (λ _. NumbersCommand self.old self.new command.old command.new)
            (λ _. 0 < declared_in (action_seen command.old)) }
        ensures forms { IfOk result
            (λ steps. KeepsCommand unbuilt.old unbuilt.new steps command.old) }
    {
        self.form(alloc, unbuilt, command.place, &mut command.form)
    }

    // What a command is, by its form, which stays where it is, and stands at this place.
    #[cycle(commands)]
    fn form(
        &mut self,
        alloc: Global,
        unbuilt: &mut Option<Breach>,
        place: Place,
        form: &mut CommandForm,
    ) -> Result<bool, NoMemory>
        ensures names { MatchResult result (λ _. NumbersForm self.old self.new form.old form.new)
            (λ _. 0 < declared_in_form (action_form_seen form.old)) }
        ensures forms { IfOk result
            (λ steps. KeepsForm unbuilt.old unbuilt.new steps place form.old) }
    {
        match form {
            CommandForm::Let { name, value, .. } => {
                self.value(value);
                self.declare(alloc, name, Sort::Variable)?;
                Ok(false)
            }
            CommandForm::LetMemory { name, value, .. } => {
                self.value(value);
                self.declare(alloc, name, Sort::Memory)?;
                Ok(false)
            }
            CommandForm::View { name, parent, form } => {
                self.use_name(parent);
                self.plan(form);
                self.declare(alloc, name, Sort::View)?;
                Ok(false) // a view is straight
            }
            CommandForm::Assign { target, value } => {
                self.use_name(target);
                self.expression(value);
                Ok(false)
            }
            CommandForm::Store { sides } => {
                self.sides(sides);
                Ok(false)
            }
            CommandForm::Reduce { target, value, .. } => {
                self.use_name(target);
                self.expression(value);
                Ok(false)
            }
            CommandForm::Call {
                function,
                arguments,
            } => {
                self.use_name(function);
                self.expressions(arguments);
                keep_unbuilt(unbuilt, place);
                Ok(true)
            }
            CommandForm::Block { body } => {
                let mut holds = has_dashes(body.as_slice());
                for part in body.iter_mut() {
                    let steps = self.part(alloc, unbuilt, part)?;
                    holds |= steps;
                }
                Ok(holds)
            }
            CommandForm::If { test, then, other } => {
                self.expression(test);
                let start = self.own_names();
                let chosen = self.inner(alloc, unbuilt, then)?;
                let others = self.optional(alloc, unbuilt, other)?;
                self.leave(start);
                Ok(chosen | others)
            }
            CommandForm::While { test, body } => {
                self.expression(test);
                self.inner(alloc, unbuilt, body)?;
                Ok(true)
            }
            CommandForm::For {
                header,
                body,
                combine,
            } => {
                let start = self.own_names();
                self.header(alloc, header)?;
                self.command(alloc, unbuilt, body)?;
                self.optional(alloc, unbuilt, combine)?;
                self.leave(start);
                Ok(true)
            }
        }
    }

    // A block that may lack. Names that it declares stay visible.
    #[cycle(commands)]
    fn optional(
        &mut self,
        alloc: Global,
        unbuilt: &mut Option<Breach>,
        block: &mut Option<Box<Command>>,
    ) -> Result<bool, NoMemory>
        ensures names { MatchResult result
            (λ _. NumbersOptional self.old self.new block.old block.new)
            (λ _. 0 < declared_in_other (maybe_block_seen block.old)) }
        ensures forms { IfOk result
            (λ steps. KeepsOptional unbuilt.old unbuilt.new steps block.old) }
    {
        match block {
            Some(command) => self.command(alloc, unbuilt, command),
            None => Ok(false),
        }
    }

    // A command whose names are visible in it alone.
    #[cycle(commands)]
    fn inner(
        &mut self,
        alloc: Global,
        unbuilt: &mut Option<Breach>,
        command: &mut Command,
    ) -> Result<bool, NoMemory>
        ensures names { MatchResult result
            (λ _. NumbersInner self.old self.new command.old command.new)
            (λ _. 0 < declared_in (action_seen command.old)) }
        ensures forms { IfOk result
            (λ steps. KeepsCommand unbuilt.old unbuilt.new steps command.old) }
    {
        let start = self.own_names();
        let steps = self.command(alloc, unbuilt, command)?;
        self.leave(start);
        Ok(steps)
    }

    // A command of a list: what it declares is visible after it, unless it is a block.
    #[cycle(commands)]
    fn next(
        &mut self,
        alloc: Global,
        unbuilt: &mut Option<Breach>,
        command: &mut Command,
    ) -> Result<bool, NoMemory>
        ensures names { MatchResult result
            (λ _. NumbersListed self.old self.new command.old command.new)
            (λ _. 0 < declared_in (action_seen command.old)) }
        ensures forms { IfOk result
            (λ steps. KeepsCommand unbuilt.old unbuilt.new steps command.old) }
    {
        if is_block(&command.form) {
            self.inner(alloc, unbuilt, command)
        } else {
            self.command(alloc, unbuilt, command)
        }
    }

    // The commands between two `---`; whether one of them holds a `---`, a loop or a call. A second one
    // that does is not built.
    #[cycle(commands)]
    fn part(
        &mut self,
        alloc: Global,
        unbuilt: &mut Option<Breach>,
        part: &mut Vec<Command>,
    ) -> Result<bool, NoMemory>
        ensures names { MatchResult result (λ _. NumbersPart self.old self.new part.old part.new)
            (λ _. 0 < declared_in_actions (part_seen part.old)) }
        ensures forms { IfOk result
            (λ steps. KeepsPart unbuilt.old unbuilt.new steps part.old) }
    {
        let mut stepped = false;
        for command in part.iter_mut() {
            let place = command.place;
            let steps = self.next(alloc, unbuilt, command)?;
            keep_second(unbuilt, stepped & steps, place);
            stepped |= steps;
        }
        Ok(stepped)
    }
}

// Whether the form is a block.
#[tactic(auto, using(dh_tree::proofs::SeenActions::actions_are))]
fn is_block(form: &CommandForm) -> bool
    ensures { result ≡ is_blocks (action_form_seen form.now) }
{
    match form {
        CommandForm::Block { .. } => true,
        CommandForm::Let { .. }
        | CommandForm::LetMemory { .. }
        | CommandForm::View { .. }
        | CommandForm::Assign { .. }
        | CommandForm::Store { .. }
        | CommandForm::Reduce { .. }
        | CommandForm::Call { .. }
        | CommandForm::If { .. }
        | CommandForm::While { .. }
        | CommandForm::For { .. } => false,
    }
}
