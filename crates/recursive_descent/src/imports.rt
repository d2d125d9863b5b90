//! Imports of a module (ECMA-262, 13th edition, 16.2.2), and the names of imports and exports: single tokens alone.
#![tactic(auto, using(parser_tables::proofs::Refusals::refusals, crate::proofs::reading::AdvancedTokens::moves))]

ghost use Rattle.std.specs.Prelude.{◌≡◌, ◌≤◌, true, codes, IfOk, IfErr};
ghost use Rattle.token_cursor.specs.CursorState.{Passes};
ghost use Rattle.token_cursor.specs.Refusals.{IsLimit, IsRefusal};
ghost use Rattle.tree.specs.Tree.{Parts, height, parts_height, join, push};
ghost use Rattle.std.specs.Bool.{OnTrue, OnFalse};
ghost use Rattle.tokens.specs.declared.token.Goal.TheVariants.{Div};
ghost use Rattle.token_cursor.specs.Seen.{SeesBy, MissesBy};
ghost use Rattle.language.specs.Token.{as_read};
ghost use Rattle.token_cursor.specs.SourceText.{SeenNext};
ghost use Rattle.tokens.specs.Scanned.{token_of};
ghost use Rattle.productions.specs.Made.{Makes};
ghost use Rattle.parser_tables.specs.Tokens.{single_node};
ghost use Rattle.recursive_descent.specs.ModuleItems.{is_quoted, is_module_name, name_kind, BindingAt, BindingComplete, ClauseAt, ClauseComplete, ItemComplete, ModuleNameAt, ModuleNameComplete, ReadWhole, SecondAt, SecondComplete, SourceAt, SourceComplete, SpecifierAt, SpecifierComplete, SpecifiersAt, SpecifiersComplete};

use crate::parser::Parser;
use crate::private_names::rare_token_node;
use crate::token_tests::span_from;
use language::Edge;
use productions::{MeasuredNode, MeasuredParts, finish_node, finish_plain};
use source_text::Fault;
use token_cursor::{StatementEnd, is_identifier, is_identifier_name};
use tokens::{Goal, Token, TokenClass};
use tree::{Flags, Form, Kind, TreeBuilder};

/// The flags of a specifier in which one name stands for both.
const ONE_NAME: Flags = Flags {
    form: Form::Shorthand,
    ..Flags::PLAIN
};

impl<'t, 's> Parser<'t, 's> {
    /// Reads an ImportDeclaration after `import`.
    pub(crate) fn import_declaration(
        &mut self,
        start: usize,
        high: u32,
    ) -> Result<MeasuredNode, Fault>
        ensures text { self.new.cursor.text ≡ self.old.cursor.text }
        ensures forward { self.old.cursor.last.stop ≤ self.new.cursor.last.stop }
        ensures waits { IfOk result (λ n. self.new.tree ≡ push self.old.tree n) }
        ensures same_open { self.new.cursor.opened ≡ self.old.cursor.opened }
        ensures same_pairs { self.new.pairs.items ≡ self.old.pairs.items }
        ensures derived { IfOk result (ReadWhole self.old.cursor self.new.cursor (codes "import") start) }
        ensures low { IfOk result (λ n. height n ≤ high) }
        ensures complete { ItemComplete self.old.cursor self.new.cursor self.old.pairs.items self.new.pairs.items high (codes "import") start result }
        ensures refused { IfErr result (IsRefusal self.new.cursor.text) }
    {
        let inner = high.saturating_sub(1);
        let mut nodes = MeasuredParts::new();
        if !self.sees_string() {
            self.import_clause(&mut nodes, inner)?;
            self.expect_word("from")?;
        }
        nodes.push(self.module_source(inner)?)?;
        self.cursor
            .semicolon(StatementEnd::AfterExpression(Edge::Closed))?;
        let span = span_from(&self.cursor, start);
        finish_plain(&mut self.tree, Kind::ImportDeclaration, span, nodes, high)
    }

    /// Reads an ImportClause: a default name, all names as one, or names in braces.
    fn import_clause(&mut self, nodes: &mut MeasuredParts, high: u32) -> Result<(), Fault>
        ensures text { self.new.cursor.text ≡ self.old.cursor.text }
        ensures forward { self.old.cursor.last.stop ≤ self.new.cursor.last.stop }
        ensures waits { (base : Parts) → self.old.tree ≡ join base nodes.old → IfOk result (λ _. self.new.tree ≡ join base nodes.new) }
        ensures same_open { self.new.cursor.opened ≡ self.old.cursor.opened }
        ensures same_pairs { self.new.pairs.items ≡ self.old.pairs.items }
        ensures derived { IfOk result (λ _. (ps : Parts) × (nodes.new ≡ join nodes.old ps) × ClauseAt self.old.cursor self.new.cursor ps) }
        ensures low { IfOk result (λ _. parts_height nodes.old ≤ high → parts_height nodes.new ≤ high) }
        ensures complete { ClauseComplete self.old.cursor self.new.cursor high nodes.old nodes.new result }
        ensures refused { IfErr result (IsRefusal self.new.cursor.text) }
    {
        let start = self.cursor.next_start();
        if self.sees_identifier() {
            nodes.push(self.import_binding(Kind::ImportDefaultSpecifier, start, high)?)?;
            if !self.accept_punctuator(",") {
                return Ok(());
            }
        }
        let start = self.cursor.next_start();
        if self.accept_punctuator("*") {
            self.expect_word("as")?;
            return nodes.push(self.import_binding(Kind::ImportNamespaceSpecifier, start, high)?);
        }
        self.specifiers(Kind::ImportSpecifier, nodes, high)
    }

    /// Reads the name that a specifier binds, which is its one part; the specifier begins here.
    fn import_binding(&mut self, kind: Kind, start: usize, high: u32) -> Result<MeasuredNode, Fault>
        ensures text { self.new.cursor.text ≡ self.old.cursor.text }
        ensures forward { self.old.cursor.last.stop ≤ self.new.cursor.last.stop }
        ensures waits { IfOk result (λ n. self.new.tree ≡ push self.old.tree n) }
        ensures same_open { self.new.cursor.opened ≡ self.old.cursor.opened }
        ensures same_pairs { self.new.pairs.items ≡ self.old.pairs.items }
        ensures derived { IfOk result (BindingAt kind start self.old.cursor self.new.cursor) }
        ensures low { IfOk result (λ n. height n ≤ high) }
        ensures complete { BindingComplete self.old.cursor self.new.cursor high kind start result }
        ensures refused { IfErr result (IsRefusal self.new.cursor.text) }
    {
        let name = self.identifier()?;
        let inner = high.saturating_sub(1);
        let local = rare_token_node(&mut self.tree, Kind::Identifier, name, inner)?;
        let nodes = MeasuredParts::one(local);
        let span = span_from(&self.cursor, start);
        finish_plain(&mut self.tree, kind, span, nodes, high)
    }

    /// Reads specifiers in their braces, of an import or an export.
    pub(crate) fn specifiers(
        &mut self,
        kind: Kind,
        nodes: &mut MeasuredParts,
        high: u32,
    ) -> Result<(), Fault>
        ensures text { self.new.cursor.text ≡ self.old.cursor.text }
        ensures forward { self.old.cursor.last.stop ≤ self.new.cursor.last.stop }
        ensures waits { (base : Parts) → self.old.tree ≡ join base nodes.old → IfOk result (λ _. self.new.tree ≡ join base nodes.new) }
        ensures same_open { self.new.cursor.opened ≡ self.old.cursor.opened }
        ensures same_pairs { self.new.pairs.items ≡ self.old.pairs.items }
        ensures derived { IfOk result (λ _. (ps : Parts) × (nodes.new ≡ join nodes.old ps) × SpecifiersAt kind self.old.cursor self.new.cursor ps) }
        ensures low { IfOk result (λ _. parts_height nodes.old ≤ high → parts_height nodes.new ≤ high) }
        ensures complete { SpecifiersComplete self.old.cursor self.new.cursor high kind nodes.old nodes.new result }
        ensures refused { IfErr result (IsRefusal self.new.cursor.text) }
    {
        self.expect_punctuator("{")?;
        'specifiers: while !self.sees_punctuator("}") {
            nodes.push(self.specifier(kind, high)?)?;
            if !self.accept_punctuator(",") {
                break;
            }
        }
        self.expect_punctuator("}")?;
        Ok(())
    }

    /// Reads an ImportSpecifier or an ExportSpecifier: one name, or two with `as` between them.
    fn specifier(&mut self, kind: Kind, high: u32) -> Result<MeasuredNode, Fault>
        ensures text { self.new.cursor.text ≡ self.old.cursor.text }
        ensures forward { self.old.cursor.last.stop ≤ self.new.cursor.last.stop }
        ensures waits { IfOk result (λ n. self.new.tree ≡ push self.old.tree n) }
        ensures passes { IfOk result (λ _. Passes self.old.cursor self.new.cursor) }
        ensures same_open { self.new.cursor.opened ≡ self.old.cursor.opened }
        ensures same_pairs { self.new.pairs.items ≡ self.old.pairs.items }
        ensures derived { IfOk result (SpecifierAt kind self.old.cursor self.new.cursor) }
        ensures low { IfOk result (λ n. height n ≤ high) }
        ensures complete { SpecifierComplete self.old.cursor self.new.cursor high kind result }
        ensures refused { IfErr result (IsRefusal self.new.cursor.text) }
    {
        let inner = high.saturating_sub(1);
        let token = self.module_name_token()?;
        let name = module_name_node(&mut self.tree, token, inner)?;
        let mut nodes = MeasuredParts::one(name);
        if self.accept_word("as") {
            nodes.push(self.second_name(kind, inner)?)?;
            let span = span_from(&self.cursor, token.start);
            return finish_plain(&mut self.tree, kind, span, nodes, high);
        }
        if matches!(kind, Kind::ImportSpecifier) && !is_identifier(&token) {
            return Err(self.syntax_error());
        }
        let span = span_from(&self.cursor, token.start);
        finish_node(&mut self.tree, kind, "", ONE_NAME, span, nodes, high)
    }

    /// Reads the name behind the `as` of a specifier: what an import binds, or any that an export has.
    fn second_name(&mut self, kind: Kind, high: u32) -> Result<MeasuredNode, Fault>
        ensures text { self.new.cursor.text ≡ self.old.cursor.text }
        ensures forward { self.old.cursor.last.stop ≤ self.new.cursor.last.stop }
        ensures waits { IfOk result (λ n. self.new.tree ≡ push self.old.tree n) }
        ensures same_open { self.new.cursor.opened ≡ self.old.cursor.opened }
        ensures same_pairs { self.new.pairs.items ≡ self.old.pairs.items }
        ensures derived { IfOk result (SecondAt kind self.old.cursor self.new.cursor) }
        ensures low { IfOk result (λ n. height n ≤ high) }
        ensures complete { SecondComplete self.old.cursor self.new.cursor high kind result }
        ensures refused { IfErr result (IsRefusal self.new.cursor.text) }
    {
        match kind {
            Kind::ImportSpecifier => {
                let local = self.identifier()?;
                rare_token_node(&mut self.tree, Kind::Identifier, local, high)
            }
            _ => self.module_name(high),
        }
    }

    /// Takes the name or the string that is a ModuleExportName (16.2).
    fn module_name_token(&mut self) -> Result<Token<'s>, Fault>
        ensures text { self.new.cursor.text ≡ self.old.cursor.text }
        ensures forward { self.old.cursor.last.stop ≤ self.new.cursor.last.stop }
        ensures same_tree { self.new.tree ≡ self.old.tree }
        ensures passes { IfOk result (λ _. Passes self.old.cursor self.new.cursor) }
        ensures same_open { self.new.cursor.opened ≡ self.old.cursor.opened }
        ensures same_pairs { self.new.pairs.items ≡ self.old.pairs.items }
        ensures accepted { IfOk result (λ token. SeenNext self.old.cursor.text self.old.cursor.last (as_read (token_of token)) self.new.cursor.last × (is_module_name (as_read (token_of token)) ≡ true)) }
        ensures missed { IfErr result (λ _. MissesBy self.old.cursor.text Div is_module_name self.old.cursor.last) }
        ensures refused { IfErr result (IsRefusal self.new.cursor.text) }
    {
        let Some(token) = self.cursor.peek(Goal::Div) else {
            return Err(self.syntax_error());
        };
        if !is_identifier_name(&token) && token.class != TokenClass::StringLiteral {
            return Err(self.syntax_error());
        }
        self.advance(token);
        Ok(token)
    }

    /// Reads a ModuleExportName (16.2).
    pub(crate) fn module_name(&mut self, high: u32) -> Result<MeasuredNode, Fault>
        ensures text { self.new.cursor.text ≡ self.old.cursor.text }
        ensures forward { self.old.cursor.last.stop ≤ self.new.cursor.last.stop }
        ensures waits { IfOk result (λ n. self.new.tree ≡ push self.old.tree n) }
        ensures passes { IfOk result (λ _. Passes self.old.cursor self.new.cursor) }
        ensures same_open { self.new.cursor.opened ≡ self.old.cursor.opened }
        ensures same_pairs { self.new.pairs.items ≡ self.old.pairs.items }
        ensures derived { IfOk result (ModuleNameAt self.old.cursor self.new.cursor) }
        ensures low { IfOk result (λ n. height n ≤ high) }
        ensures complete { ModuleNameComplete self.old.cursor self.new.cursor high result }
        ensures refused { IfErr result (IsRefusal self.new.cursor.text) }
    {
        let token = self.module_name_token()?;
        module_name_node(&mut self.tree, token, high)
    }

    /// Whether a string stands ahead.
    fn sees_string(&self) -> bool
        ensures seen { OnTrue result (SeesBy self.now.cursor.text Div is_quoted self.now.cursor.last) }
        ensures missed { OnFalse result (MissesBy self.now.cursor.text Div is_quoted self.now.cursor.last) }
    {
        match self.cursor.peek(Goal::Div) {
            Some(token) => token.class == TokenClass::StringLiteral,
            None => false,
        }
    }

    /// Reads the string behind `from`, or of an import without a clause.
    pub(crate) fn module_source(&mut self, high: u32) -> Result<MeasuredNode, Fault>
        ensures text { self.new.cursor.text ≡ self.old.cursor.text }
        ensures forward { self.old.cursor.last.stop ≤ self.new.cursor.last.stop }
        ensures waits { IfOk result (λ n. self.new.tree ≡ push self.old.tree n) }
        ensures passes { IfOk result (λ _. Passes self.old.cursor self.new.cursor) }
        ensures same_open { self.new.cursor.opened ≡ self.old.cursor.opened }
        ensures same_pairs { self.new.pairs.items ≡ self.old.pairs.items }
        ensures derived { IfOk result (SourceAt self.old.cursor self.new.cursor) }
        ensures low { IfOk result (λ n. height n ≤ high) }
        ensures complete { SourceComplete self.old.cursor self.new.cursor high result }
        ensures refused { IfErr result (IsRefusal self.new.cursor.text) }
    {
        if !self.sees_string() {
            return Err(self.syntax_error());
        }
        self.module_name(high)
    }
}

/// The node of a ModuleExportName.
fn module_name_node<'s>(
    tree: &mut TreeBuilder<'s>,
    token: Token<'s>,
    high: u32,
) -> Result<MeasuredNode, Fault>
    ensures made { Makes (single_node (name_kind token.entry.class) (token_of token.entry)) high result }
    ensures waits { IfOk result (λ n. tree.new ≡ push tree.old n) }
    ensures low { IfOk result (λ n. height n ≤ high) }
    ensures refused { IfErr result IsLimit }
{
    let kind = match token.class {
        TokenClass::StringLiteral => Kind::Literal,
        _ => Kind::Identifier,
    };
    rare_token_node(tree, kind, token, high)
}
