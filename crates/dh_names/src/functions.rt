//! The names within functions.

ghost use Rattle.std.specs.Prelude.{◌≡◌, ◌+◌, ◌<◌, ◌^◌, OnOk, MatchResult, length};
ghost use Rattle.dh_tree.specs.Scopes.{formal_sort};
ghost use Rattle.dh_names.specs.Walks.{HasRoomToDeclare, state_of};
ghost use Rattle.dh_names.specs.Programs.{IsOutside, NumbersParameters, NumbersFunction, NumbersFunctions, declared_by_all};
ghost use Rattle.dh_tree.specs.NameCounts.{declared_by};

use crate::walks::NameWalk;
use dh_base::NoMemory;
use dh_tree::{Function, Parameter, Sort};
use std::alloc::Global;

// A memory for a type with ports or dimensions, else a variable.
fn sort_of(parameter: &Parameter) -> Sort
    ensures { result ≡ formal_sort parameter.now.shape }
{
    match parameter.shape {
        Some(_) => Sort::Memory,
        None => Sort::Variable,
    }
}

impl NameWalk {
    // The parameters in order.
    fn parameters(&mut self, alloc: Global, parameters: &mut Vec<Parameter>) -> Result<(), NoMemory>
        requires { HasRoomToDeclare (state_of self.old) (length parameters.old.items) }
        ensures { MatchResult result
            (λ _. NumbersParameters self.old self.new parameters.old parameters.new)
            (λ _. 0 < length parameters.old.items) }
    {
        for parameter in parameters.iter_mut() {
            let sort = sort_of(parameter);
            self.declare(alloc, &mut parameter.name, sort)?;
        }
        Ok(())
    }

    // A function, which is entity number `number`. Only earlier functions are visible before it. It is not
    // built as a whole, so that no form is looked for in it.
    fn function(
        &mut self,
        alloc: Global,
        function: &mut Function,
        number: u32,
    ) -> Result<(), NoMemory>
        requires outside { IsOutside (state_of self.old) }
        requires room { HasRoomToDeclare (state_of self.old) (declared_by function.old) }
        ensures { OnOk result (NumbersFunction number self.old self.new function.old function.new) }
    {
        function.name.entity = Some(number);
        self.parameters(alloc, &mut function.parameters)?;
        let mut within = None;
        self.command(alloc, &mut within, &mut function.body)?;
        self.names.own.truncate(0);
        self.names.outer.bind(alloc, &function.name.name, number)
    }

    /// Gives the names of functions in order their numbers. The first of them is entity number `first`.
    pub fn functions(
        &mut self,
        alloc: Global,
        functions: &mut Vec<Function>,
        first: u32,
    ) -> Result<(), NoMemory>
        requires outside { IsOutside (state_of self.old) }
        requires few { first + length functions.old.items < 2 ^ 32 }
        requires room { HasRoomToDeclare (state_of self.old) (declared_by_all functions.old) }
        ensures { MatchResult result
            (λ _. NumbersFunctions first self.old self.new functions.old functions.new)
            (λ _. 0 < length functions.old.items) }
    {
        let mut number = first;
        for function in functions.iter_mut() {
            self.function(alloc, function, number)?;
            number += 1;
        }
        Ok(())
    }
}
