ghost use Rattle.std.specs.Prelude.{◌≡◌, ◌<◌, [], ◌∷◌, ◌++◌, length, map, None, IfOk, OnOk};
ghost use Rattle.std.specs.List.{AllByRecursion};
ghost use Rattle.std.specs.Option.{option_copied};
ghost use Rattle.sym_values.specs.Values.{all_lits};
ghost use Rattle.aig_build.specs.Circuits.{Grows};
ghost use Rattle.uf_abstraction.specs.Applying.{applied_by, apply_built, earlier, IsThere};
ghost use Rattle.uf_abstraction.specs.Names.{application_of, meant, IsAsked};
ghost use Rattle.uf_abstraction.specs.Testing.{AreLaidOut, congruence_built};

use crate::answers::{Answer, AnswerShape};
use crate::congruence::test_congruence;
use crate::copies::{copy_answer, copy_shape, copy_values, key_lits};
use crate::fresh::make_answer;
use crate::names::EntryName;
use aig_build::{Circuit, Lit};
use bit_ops::SymValue;
use indexmap::IndexMap;
use rvt_num::Memory;
use std::alloc::Global;
use std::marker::Model;

/// A name, and the literals of a key.
#[derive(PartialEq, Eq, Hash, Drop)]
pub struct Question {
    pub name: EntryName,
    pub lits: Vec<Lit>,
}

/// What an application has beside its name.
#[derive(Drop)]
pub struct Reply {
    pub key: Vec<SymValue>,
    pub shape: AnswerShape,
    pub answer: Answer,
}

/// The applications of unknown functions, in the order in which they were made.
#[derive(Drop)]
pub struct Applications {
    alloc: Global,
    made: IndexMap<Question, Reply>,
}

impl Model for Applications {
    ghost use Rattle.std.specs.Prelude.{List, map};
    ghost use Rattle.std.specs.List.{AllByRecursion};
    ghost use Rattle.uf_abstraction.specs.Applications.{Application};
    ghost use Rattle.uf_abstraction.specs.Names.{application_of, IsAsked};

    ghost Value = { List Application };

    ghost view = { λ it. map application_of it.made.entries };

    ghost invariant = { λ it. AllByRecursion IsAsked it.made.entries };
}

impl Applications {
    pub fn new(alloc: Global) -> Applications
        ensures { result ≡ [] }
    {
        Applications {
            alloc,
            made: IndexMap::new(alloc),
        }
    }

    /// The answer under this name to this key. Where both are literally those of an earlier application, it is the earlier answer,
    /// and else one of fresh inputs. After want of memory the applications are only to be dropped.
    pub fn apply(
        &mut self,
        circuit: &mut Circuit,
        name: EntryName,
        key: &[SymValue],
        shape: &AnswerShape,
    ) -> Result<Answer, Memory>
        ensures built { IfOk result (λ answer. apply_built circuit.old self.old (meant name) key.now shape.now ≡ record { nodes = circuit.new; applied = self.new; answer = answer }) }
    {
        let question = Question {
            name,
            lits: key_lits(self.alloc, key)?,
        };
        match find(&self.made, &question) {
            Some(answer) => {
                let copy = copy_answer(self.alloc, answer)?;
                Ok(copy)
            }
            None => {
                let answer = self.ask(circuit, question, key, shape)?;
                Ok(answer)
            }
        }
    }

    /// A literal that is true exactly where the applications are congruent: equal keys under one name have equal answers, at most one
    /// trap of each answer is true, and each pointer of an answer is null or on one of its targets.
    pub fn congruence(&self, circuit: &mut Circuit) -> Result<Lit, Memory>
        requires there { AllByRecursion (IsThere circuit.old) self.now }
        requires laid_out { AreLaidOut self.now }
        ensures built { IfOk result (λ lit. congruence_built circuit.old self.now ≡ record { nodes = circuit.new; lit = lit }) }
        ensures there { IfOk result (λ lit. lit.node < length circuit.new) }
        ensures grows { Grows circuit.old circuit.new }
    {
        let _count = circuit.nodes();
        let lit = test_congruence(self.alloc, &self.made, circuit)?;
        Ok(lit)
    }

    /// A new application.
    fn ask(
        &mut self,
        circuit: &mut Circuit,
        question: Question,
        key: &[SymValue],
        shape: &AnswerShape,
    ) -> Result<Answer, Memory>
        requires asked { question.lits.items ≡ all_lits key.now }
        requires absent { earlier (meant question.name) question.lits.items self.old ≡ None }
        ensures built { IfOk result (λ answer. applied_by circuit.old self.old (meant question.name) key.now shape.now None ≡ record { nodes = circuit.new; applied = self.new; answer = answer }) }
    {
        let answer = make_answer(self.alloc, circuit, shape)?;
        let copy = copy_answer(self.alloc, &answer)?;
        let key = copy_values(self.alloc, key)?;
        let shape = copy_shape(self.alloc, shape)?;
        add(&mut self.made, question, Reply { key, shape, answer })?;
        Ok(copy)
    }
}

/// The answer to a question that was asked before.
fn find<'a>(made: &'a IndexMap<Question, Reply>, question: &Question) -> Option<&'a Answer>
    requires asked { AllByRecursion IsAsked made.now.entries }
    ensures { option_copied result ≡ earlier (meant question.now.name) question.now.lits.items (map application_of made.now.entries) }
{
    match made.get(question) {
        Some(reply) => Some(&reply.answer),
        None => None,
    }
}

/// One more question, with its reply.
fn add(made: &mut IndexMap<Question, Reply>, question: Question, reply: Reply) -> Result<(), Memory>
    requires asked { AllByRecursion IsAsked made.old.entries }
    requires this { question.lits.items ≡ all_lits reply.key.items }
    requires absent { earlier (meant question.name) question.lits.items (map application_of made.old.entries) ≡ None }
    ensures added { OnOk result (map application_of made.new.entries ≡ map application_of made.old.entries ++ application_of (question, reply) ∷ []) }
    ensures asked { AllByRecursion IsAsked made.new.entries }
{
    match made.insert(question, reply) {
        Ok(_) => Ok(()),
        Err(_) => Err(Memory),
    }
}
