//! Where an expression stands.

ghost use Rattle.std.specs.Prelude.{◌≡◌, option_map};
ghost use Rattle.expression_typing.specs.Entities.{in_scope, tag_in, unevaluated};
ghost use Rattle.typing_base.specs.Views.{entity_view, tagged_view, structures_view, scope_view};

use crate::entities::{Entity, Tagged};
use crate::structures::Structure;
use name_scopes::Scopes;

/// What is declared: the names and the tags, the last one declared first, and the structs by their numbers.
#[derive(Drop)]
pub struct Environment {
    pub names: Scopes<Entity>,
    pub tags: Scopes<Tagged>,
    pub structs: Vec<Structure>,
}

/// Where an expression stands, and whether it is evaluated, as it is outside the operand of a `sizeof` (C 6.5.3.4).
#[derive(Clone, Copy)]
pub struct Scope<'t> {
    pub environment: &'t Environment,
    pub evaluated: bool,
}

impl<'t> Scope<'t> {
    #[tactic(auto, using(crate::proofs::Found::entity_found))]
    /// What a name stands for, the innermost declaration first (C 6.2.1).
    pub fn entity(self, name: &[u8]) -> Option<&'t Entity>
        ensures { option_map (λ entity. entity_view entity.now) result ≡ in_scope (scope_view self.entry).names name.now }
    {
        self.environment.names.look_up(name)
    }

    #[tactic(auto, using(crate::proofs::Found::tag_found))]
    pub fn tagged(self, name: &[u8]) -> Option<Tagged>
        ensures { option_map tagged_view result ≡ tag_in (scope_view self.entry).tags name.now }
    {
        match self.environment.tags.look_up(name) {
            Some(tagged) => Some(*tagged),
            None => None,
        }
    }

    /// In the operand of a `sizeof`.
    pub fn unevaluated(self) -> Scope<'t>
        ensures { scope_view result ≡ unevaluated (scope_view self.entry) }
    {
        Scope {
            environment: self.environment,
            evaluated: false,
        }
    }

    pub fn structs(self) -> &'t [Structure]
        ensures { structures_view result.now ≡ (scope_view self.entry).structs }
    {
        self.environment.structs.as_slice()
    }
}
