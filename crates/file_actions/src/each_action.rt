//! Each action of the grammar.

ghost use Rattle.std.specs.Prelude.{◌≡◌};
ghost use Rattle.expression_actions.specs.Follows.{Follows};
ghost use Rattle.file_actions.specs.Made.{made};
ghost use Rattle.file_actions.specs.Shown.{shown};

use crate::parts::Parts;
use c_grammar::Action;
use c_tokens::TokenClass;
use expression_actions::Fault;
use rvt_tree::Place;
use std::alloc::Global;

impl Parts {
    /// Does what the action says, where a token of this class and text was read last, at this place.
    pub fn make(
        &mut self,
        alloc: Global,
        action: Action,
        class: TokenClass,
        text: &[u8],
        place: Place,
    ) -> Result<(), Fault>
        ensures { Follows result (shown self.new) (made action class text.now place (shown self.old)) }
    {
        match action {
            Action::Keep => self.expressions.operands.keep(alloc, class, text, place),
            Action::Name => self.expressions.operands.name(),
            Action::Constant => self.expressions.operands.constant(class, place),
            Action::NoArguments => self.expressions.operands.no_arguments(alloc),
            Action::AddArgument => self.expressions.operands.add_argument(),
            Action::Call => self.expressions.operands.call(alloc),
            Action::Paren => self.expressions.operands.parenthesized(alloc),
            Action::Index => self.expressions.operands.index(alloc),
            Action::Dot => self.expressions.operands.dot(alloc),
            Action::Arrow => self.expressions.operands.arrow(alloc),
            Action::Unary => self.expressions.operands.unary(alloc),
            Action::Sizeof => self.expressions.operands.sizeof_expression(alloc),
            Action::Binary => self.expressions.operands.binary(alloc),
            Action::Conditional => self.expressions.operands.conditional(alloc),
            Action::NewBase => self.expressions.types.new_base(alloc),
            Action::Begin => self.expressions.types.begin(place),
            Action::Const => self.expressions.types.constant(place),
            Action::Void => self.expressions.types.type_word(class, place),
            Action::Word => self.expressions.types.type_word(class, place),
            Action::Named => self.expressions.types.named(alloc, text, place),
            Action::StructTag => self.expressions.types.struct_tag(alloc, text, place),
            Action::NoStructTag => self.expressions.types.no_struct_tag(),
            Action::EnumTag => self.expressions.types.enum_tag(alloc, text, place),
            Action::NoEnumTag => self.expressions.types.no_enum_tag(),
            Action::Pointer => self.expressions.types.pointer(place),
            Action::NoPointer => self.expressions.types.no_pointer(),
            Action::PointerConst => self.expressions.types.pointer_constant(),
            Action::NoDims => self.expressions.types.no_dims(alloc),
            Action::Type => self.expressions.types.type_name(alloc),
            Action::Dim => self.expressions.dim(),
            Action::OpenDim => self.expressions.open_dim(),
            Action::Cast => self.expressions.cast(alloc),
            Action::SizeofType => self.expressions.sizeof_type(alloc),
            Action::Declarator => self.declarator(alloc),
            Action::AddDeclarator => self.add_declarator(),
            Action::CondValue => self.cond_value(),
            Action::NoValues => self.no_values(alloc),
            Action::AddValue => self.add_value(),
            Action::Braces => self.braces(alloc),
            Action::InitWith => self.init_with(),
            Action::InitBare => self.init_bare(),
            Action::Declaration => self.declaration(alloc),
            Action::NoParts => self.no_parts(alloc),
            Action::AddLocal => self.add_local(),
            Action::AddStmt => self.add_stmt(),
            Action::Block => self.block(alloc),
            Action::Empty => self.empty(place),
            Action::ActStmt => self.act_stmt(),
            Action::Break => self.break_stmt(place),
            Action::Continue => self.continue_stmt(place),
            Action::Return => self.return_stmt(),
            Action::ReturnValue => self.return_value(),
            Action::If => self.if_stmt(alloc),
            Action::IfElse => self.if_else(alloc),
            Action::While => self.while_stmt(alloc),
            Action::Do => self.do_stmt(alloc),
            Action::For => self.for_stmt(alloc),
            Action::ForLocal => self.for_local(),
            Action::ForActs => self.for_acts(alloc),
            Action::ForNothing => self.for_nothing(),
            Action::ForCond => self.for_cond(),
            Action::ForEver => self.for_ever(),
            Action::ForStep => self.for_step(alloc),
            Action::NoStep => self.no_step(alloc),
            Action::NoGroups => self.no_groups(alloc),
            Action::NoLabels => self.no_labels(alloc),
            Action::AddLabel => self.add_label(),
            Action::AddGroup => self.add_group(alloc),
            Action::Switch => self.switch_stmt(alloc),
            Action::Case => self.case_label(),
            Action::Default => self.default_label(place),
            Action::AddAct => self.add_act(),
            Action::StepBefore => self.step_before(),
            Action::StepAfter => self.step_after(class, place),
            Action::Discard => self.discard(),
            Action::Assign => self.assign(),
            Action::Evaluate => self.evaluate(),
            Action::NamedParam => self.named_param(alloc),
            Action::BareParam => self.bare_param(alloc),
            Action::NoParams => self.no_params(),
            Action::LoneVoid => self.lone_void(),
            Action::Params => self.params(alloc),
            Action::Field => self.field(alloc),
            Action::Fields => self.fields(alloc),
            Action::EnumeratorWith => self.enumerator_with(),
            Action::EnumeratorBare => self.enumerator_bare(),
            Action::Enumerators => self.enumerators(alloc),
            Action::BaseAlone => self.base_alone(),
            Action::Objects => self.objects(),
            Action::Typedef => self.typedef(alloc),
            Action::Prototype => self.prototype(),
            Action::Function => self.function(),
        }
    }
}
