//! How a node is spelled, in a few bytes: its outline, and so the positions of its parts, is read off it.

ghost use Rattle.std.specs.Prelude.{◌≡◌};
ghost use Rattle.spelling_table.specs.Productions.{outline_of, has_list as lists_parts};

use crate::outline::Outline;
use crate::position::Position;
use crate::production_outlines as outlines;
use language::Rank;

/// What stands first in the head of a `for`.
#[derive(Clone, Copy)]
pub enum ForInit {
    Nothing,
    Declaration,
    Value,
}

/// What stands behind the block of a `try`.
#[derive(Clone, Copy)]
pub enum TryClauses {
    Handler,
    Finalizer,
    Both,
}

/// How a node is spelled at a position: which way of the table, as far as the positions of its parts go.
#[derive(Clone, Copy)]
pub enum Production {
    /// Without parts at positions.
    Leaf,
    Array,
    Object,
    Template,
    Function {
        is_named: bool,
    },
    Class {
        is_named: bool,
        extends: bool,
    },
    Arrow {
        is_expression: bool,
    },
    Tagged,
    Member {
        of_super: bool,
        is_computed: bool,
    },
    /// A member whose property is a private name.
    PrivateMember,
    Call {
        of_super: bool,
    },
    New,
    Meta,
    Import,
    Chain,
    Update {
        is_prefix: bool,
    },
    Unary,
    /// Two operands that an operator binds.
    Infix {
        own: Rank,
        right: Rank,
        needs_in: bool,
    },
    /// A private name before `in`.
    PrivateIn,
    Exponentiation,
    Conditional,
    Yield {
        has_operand: bool,
    },
    Assignment {
        to_pattern: bool,
    },
    Sequence,
    /// A member as a part of a chain; whether the chain goes on below it.
    MemberLink {
        goes_on: bool,
        is_computed: bool,
    },
    /// A link by a private name.
    PrivateMemberLink {
        goes_on: bool,
    },
    CallLink {
        goes_on: bool,
    },
    /// A key, and what stands behind it at a position.
    Keyed {
        is_computed: bool,
        value: Position,
    },
    /// A private name as a key, and what stands behind it at a position.
    PrivateKeyed(Position),
    /// A shorthand key, and its value at a position.
    ShorthandProperty(Position),
    ArrayPattern {
        binds: bool,
    },
    ObjectPattern {
        binds: bool,
    },
    /// What has a default, at a position.
    WithDefault(Position),
    /// One part, at a position.
    Single(Position),
    /// Two parts, each at a position.
    Pair(Position, Position),
    ClassBody,
    /// The function of a setter, whose parameter is at a position.
    Setter(Position),
    /// The function of another method.
    Method,
    Items {
        returns: bool,
    },
    Prologue {
        returns: bool,
    },
    /// The items of a module.
    Module,
    /// The specifiers of an import, and its source.
    ImportList,
    /// The list of an export, behind the gap of its declaration.
    ExportList,
    /// Declarators at a position.
    Declarators(Position),
    /// A declarator with an initialiser, whose name is at a position.
    Initialised {
        name: Position,
        has_in: bool,
    },
    If {
        has_else: bool,
        returns: bool,
    },
    Labeled {
        returns: bool,
    },
    DoWhile {
        returns: bool,
    },
    While {
        returns: bool,
    },
    For {
        init: ForInit,
        has_test: bool,
        has_update: bool,
        returns: bool,
    },
    /// A for-in or for-of, whose left side is at a position.
    ForInOf {
        left: Position,
        is_of: bool,
        returns: bool,
    },
    Switch {
        returns: bool,
    },
    Case {
        has_test: bool,
        returns: bool,
    },
    Try {
        guards: TryClauses,
        returns: bool,
    },
    /// What catches, whose parameter is at a position.
    Catch {
        parameter: Position,
        returns: bool,
    },
}

impl Production {
    /// Its outline. Each is made in a function of its own, since a function sets what it holds to zero whichever branch it takes.
    pub fn outline(self) -> Outline
        ensures { result ≡ outline_of self }
    {
        match self {
            Production::Leaf => Outline::leaf(Rank::Primary),
            Production::Array => outlines::array(),
            Production::Object => outlines::object(),
            Production::Template => outlines::template(),
            Production::Function { is_named } => outlines::function(is_named),
            Production::Class { is_named, extends } => outlines::class(is_named, extends),
            Production::Arrow { is_expression } => outlines::arrow(is_expression),
            Production::Tagged => outlines::tagged(),
            Production::Member {
                of_super,
                is_computed,
            } => outlines::member(of_super, is_computed),
            Production::PrivateMember => outlines::private_member(),
            Production::Call { of_super } => outlines::call(of_super),
            Production::New => outlines::new(),
            Production::Meta => outlines::meta(),
            Production::Import => outlines::import(),
            Production::Chain => outlines::chain(),
            Production::Update { is_prefix } => outlines::update(is_prefix),
            Production::Unary => outlines::unary(),
            Production::Infix {
                own,
                right,
                needs_in,
            } => outlines::infix(own, right, needs_in),
            Production::PrivateIn => outlines::private_in(),
            Production::Exponentiation => outlines::power(),
            Production::Conditional => outlines::conditional(),
            Production::Yield { has_operand } => outlines::yield_expression(has_operand),
            Production::Assignment { to_pattern } => outlines::assignment(to_pattern),
            Production::Sequence => outlines::sequence(),
            Production::MemberLink {
                goes_on,
                is_computed,
            } => outlines::member_link(goes_on, is_computed),
            Production::PrivateMemberLink { goes_on } => outlines::private_link(goes_on),
            Production::CallLink { goes_on } => outlines::call_link(goes_on),
            Production::Keyed { is_computed, value } => outlines::keyed(is_computed, value),
            Production::PrivateKeyed(value) => outlines::pair(Position::PrivateName, value),
            Production::ShorthandProperty(value) => outlines::echo(value),
            Production::ArrayPattern { binds } => outlines::array_pattern(binds),
            Production::ObjectPattern { binds } => outlines::object_pattern(binds),
            Production::WithDefault(target) => outlines::defaulted(target),
            Production::Single(part) => outlines::single(part),
            Production::Pair(first, second) => outlines::pair(first, second),
            Production::ClassBody => outlines::class_body(),
            Production::Setter(parameter) => outlines::setter(parameter),
            Production::Method => outlines::method(),
            Production::Items { returns } => outlines::items(returns),
            Production::Prologue { returns } => outlines::prologue(returns),
            Production::Module => outlines::module(),
            Production::ImportList => outlines::import_list(),
            Production::ExportList => outlines::export_list(),
            Production::Declarators(position) => outlines::declarators(position),
            Production::Initialised { name, has_in } => outlines::initialised(name, has_in),
            Production::If { has_else, returns } => outlines::if_statement(has_else, returns),
            Production::Labeled { returns } => outlines::labeled(returns),
            Production::DoWhile { returns } => outlines::do_while(returns),
            Production::While { returns } => outlines::while_loop(returns),
            Production::For {
                init,
                has_test,
                has_update,
                returns,
            } => outlines::for_loop(init, has_test, has_update, returns),
            Production::ForInOf {
                left,
                is_of,
                returns,
            } => outlines::for_in_of(left, is_of, returns),
            Production::Switch { returns } => outlines::switch(returns),
            Production::Case { has_test, returns } => outlines::case(has_test, returns),
            Production::Try { guards, returns } => outlines::try_statement(guards, returns),
            Production::Catch { parameter, returns } => outlines::catch(parameter, returns),
        }
    }
}

impl Production {
    /// Whether a list of parts stands behind the first ones.
    pub fn has_list(self) -> bool
        ensures { result ≡ lists_parts self }
    {
        matches!(
            self,
            Production::Array
                | Production::Object
                | Production::Template
                | Production::Function { .. }
                | Production::Arrow { .. }
                | Production::Call { .. }
                | Production::New
                | Production::Sequence
                | Production::CallLink { .. }
                | Production::ArrayPattern { .. }
                | Production::ObjectPattern { .. }
                | Production::ClassBody
                | Production::Method
                | Production::Items { .. }
                | Production::Prologue { .. }
                | Production::Module
                | Production::ImportList
                | Production::ExportList
                | Production::Declarators(_)
                | Production::Switch { .. }
                | Production::Case { .. }
        )
    }
}
