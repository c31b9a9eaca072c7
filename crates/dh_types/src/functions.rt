//! The kinds within functions.

ghost use Rattle.std.specs.Prelude.{◌<◌, MatchResult, map, length};
ghost use Rattle.dh_tree.specs.NameCounts.{declared_in_functions, declared_by};
ghost use Rattle.dh_tree.specs.Seen.{defined_seen};
ghost use Rattle.dh_types.specs.Walks.{LearnsMemories, LearnsFunctions, LearnsParameters, TypesDefinition, TypesDefinitions};

use crate::facts::{function_fact, memory_fact, parameter_fact};
use crate::walks::Walk;
use dh_base::NoMemory;
use dh_tree::{Decl, Function, Parameter};
use std::alloc::Global;

impl Walk {
    /// Adds what is known of memories from outside.
    pub fn learn_memories(&mut self, decls: &[Decl]) -> Result<(), NoMemory>
        ensures { MatchResult result (λ _. LearnsMemories self.old self.new decls.now)
            (λ _. 0 < length decls.now) }
    {
        for decl in decls {
            self.learn(memory_fact(&decl.shape))?;
        }
        Ok(())
    }

    /// Adds what is known of functions.
    pub fn learn_functions(&mut self, alloc: Global, functions: &[Function]) -> Result<(), NoMemory>
        ensures { MatchResult result (λ _. LearnsFunctions self.old self.new functions.now)
            (λ _. 0 < length functions.now) }
    {
        for function in functions {
            self.learn(function_fact(alloc, function)?)?;
        }
        Ok(())
    }

    // Adds what is known of parameters.
    fn learn_parameters(&mut self, parameters: &[Parameter]) -> Result<(), NoMemory>
        ensures { MatchResult result (λ _. LearnsParameters self.old self.new parameters.now)
            (λ _. 0 < length parameters.now) }
    {
        for parameter in parameters {
            self.learn(parameter_fact(parameter))?;
        }
        Ok(())
    }

    // Gives the expressions of a function their kinds.
    fn function(&mut self, alloc: Global, function: &mut Function) -> Result<(), NoMemory>
        ensures { MatchResult result
            (λ _. TypesDefinition self.old self.new function.old function.new)
            (λ _. 0 < declared_by function.old) }
    {
        self.learn_parameters(&function.parameters)?;
        self.command(alloc, &mut function.body)?;
        Ok(())
    }

    /// Gives the expressions of functions their kinds.
    pub fn functions(
        &mut self,
        alloc: Global,
        functions: &mut Vec<Function>,
    ) -> Result<(), NoMemory>
        ensures { MatchResult result
            (λ _. TypesDefinitions self.old self.new functions.old functions.new)
            (λ _. 0 < declared_in_functions (map defined_seen functions.old.items)) }
    {
        for function in functions.iter_mut() {
            self.function(alloc, function)?;
        }
        Ok(())
    }
}
