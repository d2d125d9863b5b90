//! Functions, arrow functions and classes (ECMA-262 14.1 to 14.3, 14.6).
#![tactic(auto, using(parser_tables::proofs::Refusals::refusals, crate::proofs::reading::AdvancedTokens::moves))]

ghost use Rattle.recursive_descent.specs.Complete.{ArrowComplete, FunctionOrClassComplete};
ghost use Rattle.std.specs.Prelude.{◌≡◌, ◌≤◌, [], codes, IfOk, IfErr};
ghost use Rattle.token_cursor.specs.CursorState.{Passes};
ghost use Rattle.recursive_descent.specs.Follows.{NamedAt, NotNamed};
ghost use Rattle.recursive_descent.specs.Soundness.{Adds, ArrowAt};
ghost use Rattle.tree.specs.Tree.{height, node, plain, Parts, push, join};
ghost use Rattle.productions.specs.Made.{Makes};
ghost use Rattle.recursive_descent.specs.SoundnessOfStatements.{ClosureAt};
ghost use Rattle.token_cursor.specs.Refusals.{IsRefusal};
ghost use Rattle.token_cursor.specs.CursorState.{IsSyntaxHere};
ghost use Rattle.token_cursor.specs.Seen.{Misses};
ghost use Rattle.tree.specs.Uses.{is_async};
ghost use Rattle.tokens.specs.declared.token.TokenClass.{TokenClass};
ghost use Rattle.recursive_descent.specs.Later.{StarredAt, WordsAt, WordsOf, FirstWord, FirstWordOf, MissesWordOf, FormOfLanguage};
ghost use Rattle.parser_tables.specs.StatementSymbols.{function_or_class_form};
ghost use Rattle.recursive_descent.specs.Spelled.{OfLanguage, AllOfLanguage};

use crate::parser::Parser;
use crate::primary::token_node;
use crate::token_tests::span_from;
use language::{Edge, Rank};
use parser_tables::{
    ExpressionContext, FunctionOrClass, Operand, PartialStatement, StatementContext, body_symbols,
};
use productions::{MeasuredNode, MeasuredParts, finish_node};
use source_text::Fault;
use token_cursor::Cursor;
use tree::{Flags, Form, Kind, TreeBuilder};

impl<'t, 's> Parser<'t, 's> {
    /// Reads the name of a function or a class, which is its first part; a gap if it is left out or is a method's.
    fn function_or_class_name(
        &mut self,
        closure: FunctionOrClass,
        high: u32,
    ) -> Result<MeasuredParts, Fault>
        ensures text { self.new.cursor.text ≡ self.old.cursor.text }
        ensures forward { self.old.cursor.last.stop ≤ self.new.cursor.last.stop }
        ensures waits { IfOk result (λ nodes. self.new.tree ≡ join self.old.tree nodes) }
        ensures same_open { self.new.cursor.opened ≡ self.old.cursor.opened }
        ensures same_pairs { self.new.pairs.items ≡ self.old.pairs.items }
        ensures named { IfOk result (NamedAt closure self.old.cursor self.new.cursor high) }
        ensures unnamed { IfErr result (NotNamed closure self.old.cursor high) }
        ensures refused { IfErr result (IsRefusal self.new.cursor.text) }
    {
        let has_name = match closure {
            FunctionOrClass::FunctionDeclaration(_) | FunctionOrClass::ClassDeclaration => true,
            FunctionOrClass::Method(_) => false,
            _ => self.sees_identifier(),
        };
        if has_name {
            let name = self.identifier()?;
            let name = token_node(&mut self.tree, Kind::Identifier, name, high)?;
            return Ok(MeasuredParts::one(name));
        }
        let mut nodes = MeasuredParts::new();
        nodes.push_gap(&mut self.tree)?;
        Ok(nodes)
    }

    /// A function or a class from its name on, or from its parameters on.
    #[cycle(grammar)]
    #[inline(never)]
    pub(crate) fn function_or_class(
        &mut self,
        closure: FunctionOrClass,
        start: usize,
        high: u32,
    ) -> Result<MeasuredNode, Fault>
        ensures text { self.new.cursor.text ≡ self.old.cursor.text }
        ensures forward { self.old.cursor.last.stop ≤ self.new.cursor.last.stop }
        ensures waits { IfOk result (λ n. self.new.tree ≡ push self.old.tree n) }
        ensures derived { IfOk result (λ n. Adds self.old.cursor self.new.cursor self.old.pairs.items self.new.pairs.items (ClosureAt self.old.cursor.text closure start n)) }
        ensures low { IfOk result (λ n. height n ≤ high) }
        ensures own { IfOk result (λ n. FormOfLanguage self.old.cursor.text (function_or_class_form closure) → OfLanguage self.old.cursor.text n) }
        ensures complete { FunctionOrClassComplete self.old.cursor self.new.cursor self.old.pairs.items self.new.pairs.items high closure start result }
        ensures refused { IfErr result (IsRefusal self.new.cursor.text) }
    {
        let inner = high.saturating_sub(1);
        let mut built = PartialStatement::of(self.function_or_class_name(closure, inner)?);
        self.read_symbols(closure.symbols(), &mut built, StatementContext::BODY, inner)?;
        let span = span_from(&self.cursor, start);
        finish_node(
            &mut self.tree,
            closure.kind(),
            "",
            closure.flags(),
            span,
            built.nodes,
            high,
        )
    }

    /// Goes past the words of a function that stand behind its first: `function` behind `async`, and the `*` of a generator; answers what is
    /// declared.
    pub(crate) fn function_words(
        &mut self,
        closure: FunctionOrClass,
    ) -> Result<FunctionOrClass, Fault>
        requires first { FirstWordOf self.old.cursor closure }
        ensures text { self.new.cursor.text ≡ self.old.cursor.text }
        ensures forward { self.old.cursor.last.stop ≤ self.new.cursor.last.stop }
        ensures same_tree { self.new.tree ≡ self.old.tree }
        ensures same_open { self.new.cursor.opened ≡ self.old.cursor.opened }
        ensures same_pairs { self.new.pairs.items ≡ self.old.pairs.items }
        ensures refused { IfErr result (IsRefusal self.new.cursor.text) }
        ensures words { IfOk result (λ c. WordsOf closure c self.old.cursor self.new.cursor) }
        ensures missed { IfErr result (λ _. MissesWordOf self.old.cursor closure) }
    {
        match closure {
            FunctionOrClass::FunctionDeclaration(form) => Ok(FunctionOrClass::FunctionDeclaration(
                self.function_form(form)?,
            )),
            FunctionOrClass::DefaultFunction(form) => Ok(FunctionOrClass::DefaultFunction(
                self.function_form(form)?,
            )),
            _ => Ok(closure),
        }
    }

    /// Goes past `function` behind `async`, and past the `*` of a generator; answers the form of the function.
    pub(crate) fn function_form(&mut self, form: Form) -> Result<Form, Fault>
        requires first { FirstWord self.old.cursor form }
        ensures text { self.new.cursor.text ≡ self.old.cursor.text }
        ensures forward { self.old.cursor.last.stop ≤ self.new.cursor.last.stop }
        ensures same_tree { self.new.tree ≡ self.old.tree }
        ensures same_open { self.new.cursor.opened ≡ self.old.cursor.opened }
        ensures same_pairs { self.new.pairs.items ≡ self.old.pairs.items }
        ensures refused { IfErr result (IsRefusal self.new.cursor.text) }
        ensures words { IfOk result (λ y. WordsAt self.old.cursor self.new.cursor y × (is_async y ≡ is_async form)) }
        ensures missed { IfErr result (λ fault. IsSyntaxHere self.new.cursor fault × (form ≡ Form.Async) × Misses self.old.cursor.text TokenClass.IdentifierName (codes "function") self.old.cursor.last) }
    {
        if form.is_async() {
            self.expect_word("function")?;
        }
        Ok(self.starred(form))
    }

    /// Goes past the `*` of a generator (15.5 of the 13th edition), and answers the form with it.
    pub(crate) fn starred(&mut self, form: Form) -> Form
        ensures text { self.new.cursor.text ≡ self.old.cursor.text }
        ensures forward { self.old.cursor.last.stop ≤ self.new.cursor.last.stop }
        ensures same_tree { self.new.tree ≡ self.old.tree }
        ensures same_open { self.new.cursor.opened ≡ self.old.cursor.opened }
        ensures same_pairs { self.new.pairs.items ≡ self.old.pairs.items }
        ensures starred { StarredAt self.old.cursor self.new.cursor form result }
    {
        if !self.cursor.is_of_2022() || !self.accept_punctuator("*") {
            return form;
        }
        match form {
            Form::Async => Form::AsyncGenerator,
            _ => Form::Generator,
        }
    }

    /// An arrow function from its `=>` on (14.2).
    #[cycle(grammar)]
    #[inline(never)]
    pub(crate) fn arrow_function(
        &mut self,
        parameters: MeasuredParts,
        start: usize,
        form: Form,
        has_in: bool,
        high: u32,
    ) -> Result<Operand, Fault>
        ensures text { self.new.cursor.text ≡ self.old.cursor.text }
        ensures forward { self.old.cursor.last.stop ≤ self.new.cursor.last.stop }
        ensures waits { (base : Parts) → self.old.tree ≡ join base parameters → IfOk result (λ part. self.new.tree ≡ push base part.cover.node) }
        ensures passes { IfOk result (λ _. Passes self.old.cursor self.new.cursor) }
        ensures derived { IfOk result (λ part. Adds self.old.cursor self.new.cursor self.old.pairs.items self.new.pairs.items (ArrowAt self.old.cursor.text form has_in parameters start part)) }
        ensures low { IfOk result (λ part. height part.cover.node ≤ high) }
        ensures own { IfOk result (λ part. AllOfLanguage self.old.cursor.text parameters → FormOfLanguage self.old.cursor.text form → OfLanguage self.old.cursor.text part.cover.node) }
        ensures complete { ArrowComplete self.old.cursor self.new.cursor self.old.pairs.items self.new.pairs.items high parameters start form has_in result }
        ensures refused { IfErr result (IsRefusal self.new.cursor.text) }
    {
        self.expect_punctuator("=>")?;
        let inner = high.saturating_sub(1);
        let mut built = PartialStatement::of(parameters);
        if self.sees_punctuator("{") {
            self.read_symbols(body_symbols(), &mut built, StatementContext::BODY, inner)?;
            let flags = arrow_flags(form, false);
            let node = arrow_node(
                &self.cursor,
                &mut self.tree,
                built.nodes,
                start,
                flags,
                high,
            )?;
            return Ok(Operand::plain(node, Rank::Assignment, Edge::Arrow));
        }
        let body = self.expression(ExpressionContext::concise_body(has_in), inner)?;
        let edge = body.edge;
        built.nodes.push(self.into_expression(body)?)?;
        let flags = arrow_flags(form, true);
        let node = arrow_node(
            &self.cursor,
            &mut self.tree,
            built.nodes,
            start,
            flags,
            high,
        )?;
        Ok(Operand::plain(node, Rank::Assignment, edge))
    }
}

/// The node of an arrow function that begins here.
fn arrow_node(
    cursor: &Cursor<'_, '_>,
    tree: &mut TreeBuilder<'_>,
    nodes: MeasuredParts,
    start: usize,
    flags: Flags,
    high: u32,
) -> Result<MeasuredNode, Fault>
    ensures made { Makes (node Kind.ArrowFunctionExpression [] flags start cursor.now.last.stop nodes) high result }
    ensures waits { (base : Parts) → tree.old ≡ join base nodes → IfOk result (λ n. tree.new ≡ push base n) }
{
    let span = span_from(cursor, start);
    finish_node(
        tree,
        Kind::ArrowFunctionExpression,
        "",
        flags,
        span,
        nodes,
        high,
    )
}

/// The flags of an arrow function (14.2) of this form, whose body is an expression or not.
fn arrow_flags(form: Form, is_concise: bool) -> Flags
    ensures { result ≡ record plain { expression = is_concise; form = form } }
{
    let mut flags = Flags::PLAIN;
    flags.expression = is_concise;
    flags.form = form;
    flags
}
