//! The kinds within commands.

ghost use Rattle.std.specs.Prelude.{◌<◌, MatchResult};
ghost use Rattle.dh_tree.specs.NameCounts.{declared_in, declared_in_form, declared_in_other, declared_in_actions};
ghost use Rattle.dh_tree.specs.Seen.{action_seen, action_form_seen, part_seen, maybe_block_seen};
ghost use Rattle.dh_types.specs.Walks.{TypesCommand, TypesCommandForm, TypesOptional, TypesPart};

use crate::walks::Walk;
use dh_base::NoMemory;
use dh_tree::{Command, CommandForm};
use std::alloc::Global;

impl Walk {
    /// Gives the expressions of a command their kinds.
    #[cycle(commands)]
    pub fn command(&mut self, alloc: Global, command: &mut Command) -> Result<(), NoMemory>
        ensures { MatchResult result (λ _. TypesCommand self.old self.new command.old command.new)
            (λ _. 0 < declared_in (action_seen command.old)) }
    {
        self.form(alloc, &mut command.form)
    }

    // The expressions of a command, by its form, which stays where it is.
    #[cycle(commands)]
    fn form(&mut self, alloc: Global, form: &mut CommandForm) -> Result<(), NoMemory>
        ensures { MatchResult result (λ _. TypesCommandForm self.old self.new form.old form.new)
            (λ _. 0 < declared_in_form (action_form_seen form.old)) }
    {
        match form {
            CommandForm::Let {
                declared,
                value,
                ..
            } => self.variable(*declared, value),
            CommandForm::LetMemory { shape, value, .. } => self.memory(shape, value),
            CommandForm::View { parent, form, .. } => self.viewed(parent, form),
            CommandForm::Assign { target, value } => {
                self.assignment(target, value);
                Ok(())
            }
            CommandForm::Store { sides } => {
                self.sides(sides);
                Ok(())
            }
            CommandForm::Reduce { target, value, .. } => {
                self.reduction(target, value);
                Ok(())
            }
            CommandForm::Call {
                function,
                arguments,
            } => {
                self.arguments(function, arguments);
                Ok(())
            }
            CommandForm::Block { body } => {
                for part in body.iter_mut() {
                    self.part(alloc, part)?;
                }
                Ok(())
            }
            CommandForm::If { test, then, other } => {
                self.condition(test);
                self.command(alloc, then)?;
                self.optional(alloc, other)
            }
            CommandForm::While { test, body } => {
                self.condition(test);
                self.command(alloc, body)
            }
            CommandForm::For {
                header,
                body,
                combine,
            } => {
                self.header(header)?;
                self.command(alloc, body)?;
                self.optional(alloc, combine)
            }
        }
    }

    // A block that may lack.
    #[cycle(commands)]
    fn optional(&mut self, alloc: Global, block: &mut Option<Box<Command>>) -> Result<(), NoMemory>
        ensures { MatchResult result (λ _. TypesOptional self.old self.new block.old block.new)
            (λ _. 0 < declared_in_other (maybe_block_seen block.old)) }
    {
        match block {
            Some(command) => self.command(alloc, command),
            None => Ok(()),
        }
    }

    // The commands between two `---`.
    #[cycle(commands)]
    fn part(&mut self, alloc: Global, part: &mut Vec<Command>) -> Result<(), NoMemory>
        ensures { MatchResult result (λ _. TypesPart self.old self.new part.old part.new)
            (λ _. 0 < declared_in_actions (part_seen part.old)) }
    {
        for command in part.iter_mut() {
            self.command(alloc, command)?;
        }
        Ok(())
    }
}
