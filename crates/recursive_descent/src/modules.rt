//! Modules: their items, and exports (ECMA-262, 13th edition, 16.2, 16.2.3).
#![tactic(auto, using(parser_tables::proofs::Refusals::refusals, crate::proofs::reading::AdvancedTokens::moves))]

ghost use Rattle.std.specs.Prelude.{◌≡◌, ◌≤◌, ◌⊎◌, true, codes, IfOk, IfErr, IfSome, IfNone};
ghost use Rattle.token_cursor.specs.CursorState.{IsAhead, Passes};
ghost use Rattle.token_cursor.specs.Refusals.{IsRefusal};
ghost use Rattle.tokens.specs.Scanned.{token_of};
ghost use Rattle.tree.specs.Tree.{height, parts_height, push, join};
ghost use Rattle.tokens.specs.declared.token.Goal.TheVariants.{Div};
ghost use Rattle.language.specs.Statements.{module_prologue};
ghost use Rattle.std.specs.Bool.{OnTrue, OnFalse};
ghost use Rattle.language.specs.Token.{Token as Read, as_read};
ghost use Rattle.token_cursor.specs.Seen.{Sees, Misses, SeesBy, MissesBy};
ghost use Rattle.token_cursor.specs.SourceText.{SeenNext};
ghost use Rattle.parser_tables.specs.StatementStarts.{AsyncFunctionAhead, NoAsyncFunction};
ghost use Rattle.recursive_descent.specs.Spelled.{SpellsIn};
ghost use Rattle.parser_tables.specs.Tests.{ends};
ghost use Rattle.recursive_descent.specs.Soundness.{Adds, RunsIn, anywhere};
ghost use Rattle.recursive_descent.specs.Later.{ModuleComplete, item_of_module};
ghost use Rattle.recursive_descent.specs.ModuleItems.{begins_declaration, begins_default, BehindComplete, DefaultBegun, DefaultComplete, ExportBehind, ExportComplete, ItemAt, ItemComplete, ModuleItemComplete, ReadBehind, ReadWhole};

use crate::parser::Parser;
use crate::token_tests::span_from;
use language::Edge;
use parser_tables::{ExpressionContext, FunctionOrClass, StatementContext, StatementListEnd};
use productions::{MeasuredNode, MeasuredParts, finish_plain};
use source_text::Fault;
use token_cursor::{StatementEnd, is_declaration_word, is_name_token, is_punctuator};
use tokens::{Goal, Token, TokenClass};
use tree::{Form, Kind};

impl<'t, 's> Parser<'t, 's> {
    /// Reads a ModuleItemList (16.2), up to the end of the text, with its directives (14.1.1).
    pub(crate) fn module_items(&mut self, high: u32) -> Result<MeasuredParts, Fault>
        ensures text { self.new.cursor.text ≡ self.old.cursor.text }
        ensures waits { IfOk result (λ nodes. self.new.tree ≡ join self.old.tree nodes) }
        ensures derived { IfOk result (λ nodes. Adds self.old.cursor self.new.cursor self.old.pairs.items self.new.pairs.items (λ o s e P. RunsIn self.old.cursor.text o (anywhere (module_prologue true nodes)) nodes s e P)) }
        ensures ended { IfOk result (λ _. SeesBy self.new.cursor.text Div (ends StatementListEnd.EndOfText) self.new.cursor.last) }
        ensures low { IfOk result (λ nodes. parts_height nodes ≤ high) }
        ensures complete { ModuleComplete self.old.cursor self.new.cursor self.old.pairs.items self.new.pairs.items high result }
        ensures refused { IfErr result (IsRefusal self.new.cursor.text) }
    {
        let mut context = StatementContext::SCRIPT;
        let mut nodes = MeasuredParts::new();
        'items: while !self.sees_text_end() {
            let item = self.module_item(context, high)?;
            context.is_prologue = context.is_prologue && item.is_directive();
            nodes.push(item)?;
        }
        Ok(nodes)
    }

    /// Whether the end of the text stands ahead.
    fn sees_text_end(&self) -> bool
        ensures seen { OnTrue result (SeesBy self.now.cursor.text Div (ends StatementListEnd.EndOfText) self.now.cursor.last) }
        ensures missed { OnFalse result (MissesBy self.now.cursor.text Div (ends StatementListEnd.EndOfText) self.now.cursor.last) }
    {
        self.sees_end(StatementListEnd::EndOfText)
    }

    /// Reads a ModuleItem (16.2): an import, an export, or an item as in a script.
    fn module_item(&mut self, context: StatementContext, high: u32) -> Result<MeasuredNode, Fault>
        ensures text { self.new.cursor.text ≡ self.old.cursor.text }
        ensures forward { self.old.cursor.last.stop ≤ self.new.cursor.last.stop }
        ensures waits { IfOk result (λ n. self.new.tree ≡ push self.old.tree n) }
        ensures passes { IfOk result (λ _. Passes self.old.cursor self.new.cursor) }
        ensures derived { IfOk result (λ n. Adds self.old.cursor self.new.cursor self.old.pairs.items self.new.pairs.items (λ o s e P. SpellsIn self.old.cursor.text o (item_of_module context n) n s e P)) }
        ensures low { IfOk result (λ n. height n ≤ high) }
        ensures complete { ModuleItemComplete self.old.cursor self.new.cursor self.old.pairs.items self.new.pairs.items high context result }
        ensures refused { IfErr result (IsRefusal self.new.cursor.text) }
    {
        let Some(token) = self.cursor.peek(Goal::Div) else {
            return self.statement(context, high);
        };
        if is_name_token(&token, "export") {
            self.advance(token);
            return self.export_item(token.start, high);
        }
        if is_name_token(&token, "import") && !self.begins_import_expression(&token) {
            self.advance(token);
            return self.import_declaration(token.start, high);
        }
        self.statement(context, high)
    }

    /// Whether the `import` ahead begins an expression: `(` or `.` stands behind it.
    fn begins_import_expression(&self, token: &Token<'s>) -> bool
        requires { IsAhead Goal.Div self.now.cursor.text self.now.cursor.last.stop (token_of token.now) }
        ensures seen { OnTrue result ((m : Read) × SeenNext self.now.cursor.text self.now.cursor.last (as_read (token_of token.now)) m × (Sees self.now.cursor.text TokenClass.Punctuator (codes "(") m ⊎ Sees self.now.cursor.text TokenClass.Punctuator (codes ".") m)) }
        ensures missed { OnFalse result ((m : Read) → SeenNext self.now.cursor.text self.now.cursor.last (as_read (token_of token.now)) m → Misses self.now.cursor.text TokenClass.Punctuator (codes "(") m × Misses self.now.cursor.text TokenClass.Punctuator (codes ".") m) }
    {
        match self.cursor.peek_behind(token) {
            Some(second) => is_punctuator(&second, "(") || is_punctuator(&second, "."),
            None => false,
        }
    }

    /// Reads an ExportDeclaration after `export`.
    fn export_item(&mut self, start: usize, high: u32) -> Result<MeasuredNode, Fault>
        ensures text { self.new.cursor.text ≡ self.old.cursor.text }
        ensures forward { self.old.cursor.last.stop ≤ self.new.cursor.last.stop }
        ensures waits { IfOk result (λ n. self.new.tree ≡ push self.old.tree n) }
        ensures derived { IfOk result (λ n. Adds self.old.cursor self.new.cursor self.old.pairs.items self.new.pairs.items (ItemAt self.old.cursor.text (codes "export") start n)) }
        ensures low { IfOk result (λ n. height n ≤ high) }
        ensures complete { ExportComplete self.old.cursor self.new.cursor self.old.pairs.items self.new.pairs.items high start result }
        ensures refused { IfErr result (IsRefusal self.new.cursor.text) }
    {
        if self.accept_punctuator("*") {
            return self.export_all(start, high);
        }
        if self.sees_punctuator("{") {
            return self.export_list(start, high);
        }
        if self.accept_word("default") {
            return self.export_default(start, high);
        }
        self.export_declaration(start, high)
    }

    /// Reads the rest of an export of all names of a module after `export *`.
    fn export_all(&mut self, start: usize, high: u32) -> Result<MeasuredNode, Fault>
        ensures text { self.new.cursor.text ≡ self.old.cursor.text }
        ensures forward { self.old.cursor.last.stop ≤ self.new.cursor.last.stop }
        ensures waits { IfOk result (λ n. self.new.tree ≡ push self.old.tree n) }
        ensures same_open { self.new.cursor.opened ≡ self.old.cursor.opened }
        ensures same_pairs { self.new.pairs.items ≡ self.old.pairs.items }
        ensures derived { IfOk result (ReadBehind self.old.cursor self.new.cursor TokenClass.Punctuator (codes "*") start) }
        ensures low { IfOk result (λ n. height n ≤ high) }
        ensures complete { BehindComplete self.old.cursor self.new.cursor self.old.pairs.items self.new.pairs.items high TokenClass.Punctuator (codes "*") start result }
        ensures refused { IfErr result (IsRefusal self.new.cursor.text) }
    {
        let inner = high.saturating_sub(1);
        let mut nodes = MeasuredParts::new();
        match self.accept_word("as") {
            true => nodes.push(self.module_name(inner)?)?,
            false => nodes.push_gap(&mut self.tree)?,
        }
        self.expect_word("from")?;
        nodes.push(self.module_source(inner)?)?;
        self.cursor
            .semicolon(StatementEnd::AfterExpression(Edge::Closed))?;
        let span = span_from(&self.cursor, start);
        finish_plain(
            &mut self.tree,
            Kind::ExportAllDeclaration,
            span,
            nodes,
            high,
        )
    }

    /// Reads NamedExports, whose `{` stands ahead, perhaps from another module: `from` belongs to them behind a line break too.
    fn export_list(&mut self, start: usize, high: u32) -> Result<MeasuredNode, Fault>
        ensures text { self.new.cursor.text ≡ self.old.cursor.text }
        ensures forward { self.old.cursor.last.stop ≤ self.new.cursor.last.stop }
        ensures waits { IfOk result (λ n. self.new.tree ≡ push self.old.tree n) }
        ensures same_open { self.new.cursor.opened ≡ self.old.cursor.opened }
        ensures same_pairs { self.new.pairs.items ≡ self.old.pairs.items }
        ensures derived { IfOk result (ReadWhole self.old.cursor self.new.cursor (codes "export") start) }
        ensures low { IfOk result (λ n. height n ≤ high) }
        ensures complete { Sees self.old.cursor.text TokenClass.Punctuator (codes "{") self.old.cursor.last → ItemComplete self.old.cursor self.new.cursor self.old.pairs.items self.new.pairs.items high (codes "export") start result }
        ensures refused { IfErr result (IsRefusal self.new.cursor.text) }
    {
        let inner = high.saturating_sub(1);
        let mut nodes = MeasuredParts::new();
        nodes.push_gap(&mut self.tree)?;
        self.specifiers(Kind::ExportSpecifier, &mut nodes, inner)?;
        let mut ending = StatementEnd::AfterExport;
        if self.accept_word("from") {
            nodes.push(self.module_source(inner)?)?;
            ending = StatementEnd::AfterExpression(Edge::Closed);
        } else {
            nodes.push_gap(&mut self.tree)?;
        }
        self.cursor.semicolon(ending)?;
        let span = span_from(&self.cursor, start);
        finish_plain(
            &mut self.tree,
            Kind::ExportNamedDeclaration,
            span,
            nodes,
            high,
        )
    }

    /// Reads the declaration behind `export`.
    fn export_declaration(&mut self, start: usize, high: u32) -> Result<MeasuredNode, Fault>
        ensures text { self.new.cursor.text ≡ self.old.cursor.text }
        ensures forward { self.old.cursor.last.stop ≤ self.new.cursor.last.stop }
        ensures waits { IfOk result (λ n. self.new.tree ≡ push self.old.tree n) }
        ensures derived { IfOk result (λ n. Adds self.old.cursor self.new.cursor self.old.pairs.items self.new.pairs.items (ItemAt self.old.cursor.text (codes "export") start n)) }
        ensures low { IfOk result (λ n. height n ≤ high) }
        ensures complete { Misses self.old.cursor.text TokenClass.Punctuator (codes "*") self.old.cursor.last → Misses self.old.cursor.text TokenClass.Punctuator (codes "{") self.old.cursor.last → Misses self.old.cursor.text TokenClass.IdentifierName (codes "default") self.old.cursor.last → ExportComplete self.old.cursor self.new.cursor self.old.pairs.items self.new.pairs.items high start result }
        ensures refused { IfErr result (IsRefusal self.new.cursor.text) }
    {
        if !self.sees_declaration() {
            return Err(self.syntax_error());
        }
        let inner = high.saturating_sub(1);
        let declaration = self.statement(StatementContext::item(false), inner)?;
        let mut nodes = MeasuredParts::one(declaration);
        nodes.push_gap(&mut self.tree)?;
        let span = span_from(&self.cursor, start);
        finish_plain(
            &mut self.tree,
            Kind::ExportNamedDeclaration,
            span,
            nodes,
            high,
        )
    }

    /// Whether a declaration begins ahead: of variables, a function or a class.
    fn sees_declaration(&self) -> bool
        ensures seen { OnTrue result (SeesBy self.now.cursor.text Div begins_declaration self.now.cursor.last ⊎ AsyncFunctionAhead self.now.cursor.text self.now.cursor.last) }
        ensures missed { OnFalse result (MissesBy self.now.cursor.text Div begins_declaration self.now.cursor.last × NoAsyncFunction self.now.cursor.text self.now.cursor.last) }
    {
        let Some(token) = self.cursor.peek(Goal::Div) else {
            return false;
        };
        is_declaration_word(&token)
            || is_name_token(&token, "function")
            || is_name_token(&token, "class")
            || self.sees_async_function()
    }

    /// Reads what stands behind `export default`. Its first token, for an async function its first two, say whether it is a function or a
    /// class that is declared; so an expression may then begin with anything.
    fn export_default(&mut self, start: usize, high: u32) -> Result<MeasuredNode, Fault>
        ensures text { self.new.cursor.text ≡ self.old.cursor.text }
        ensures forward { self.old.cursor.last.stop ≤ self.new.cursor.last.stop }
        ensures waits { IfOk result (λ n. self.new.tree ≡ push self.old.tree n) }
        ensures derived { IfOk result (λ n. Adds self.old.cursor self.new.cursor self.old.pairs.items self.new.pairs.items (ExportBehind self.old.cursor.text TokenClass.IdentifierName (codes "default") start n)) }
        ensures low { IfOk result (λ n. height n ≤ high) }
        ensures complete { DefaultComplete self.old.cursor self.new.cursor self.old.pairs.items self.new.pairs.items high start result }
        ensures refused { IfErr result (IsRefusal self.new.cursor.text) }
    {
        let inner = high.saturating_sub(1);
        let exported = match self.default_declaration() {
            Some((token, closure)) => {
                self.advance(token);
                let closure = self.function_words(closure)?;
                self.function_or_class(closure, token.start, inner)?
            }
            None => {
                let part = self.expression(ExpressionContext::ASSIGNMENT, inner)?;
                let edge = part.edge;
                let value = self.into_expression(part)?;
                self.cursor.semicolon(StatementEnd::AfterExpression(edge))?;
                value
            }
        };
        let nodes = MeasuredParts::one(exported);
        let span = span_from(&self.cursor, start);
        finish_plain(
            &mut self.tree,
            Kind::ExportDefaultDeclaration,
            span,
            nodes,
            high,
        )
    }

    /// The function or the class that begins ahead and whose name may be missing, with its first token.
    fn default_declaration(&self) -> Option<(Token<'s>, FunctionOrClass)>
        ensures ahead { IfSome result (λ found. IsAhead Goal.Div self.now.cursor.text self.now.cursor.last.stop (token_of found.0)) }
        ensures begun { IfSome result (λ found. DefaultBegun self.now.cursor.text self.now.cursor.last found.0 found.1) }
        ensures other { IfNone result (MissesBy self.now.cursor.text Div begins_default self.now.cursor.last × NoAsyncFunction self.now.cursor.text self.now.cursor.last) }
    {
        let Some(token) = self.cursor.peek(Goal::Div) else {
            return None;
        };
        if is_name_token(&token, "function") {
            return Some((token, FunctionOrClass::DefaultFunction(Form::Init)));
        }
        if is_name_token(&token, "class") {
            return Some((token, FunctionOrClass::DefaultClass));
        }
        match self.sees_async_function() {
            true => Some((token, FunctionOrClass::DefaultFunction(Form::Async))),
            false => None,
        }
    }
}
