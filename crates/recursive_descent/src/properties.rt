//! Properties of objects and members of classes (ECMA-262 12.2.6, 14.3, 14.6).
#![tactic(auto, using(parser_tables::proofs::Refusals::refusals, crate::proofs::reading::AdvancedTokens::moves))]

ghost use Rattle.recursive_descent.specs.Complete.{PropertyOrMemberComplete, NameComplete, ValueComplete};
ghost use Rattle.std.specs.Prelude.{◌≡◌, ◌≤◌, ◌&&◌, true, false, codes, is_some, Some, IfOk, IfErr, IfSome};
ghost use Rattle.token_cursor.specs.CursorState.{Passes};
ghost use Rattle.recursive_descent.specs.Members.{KeyRead, NoKey};
ghost use Rattle.parser_tables.specs.Methods.{member_flags, method_form, member_kind, is_constructor};
ghost use Rattle.token_cursor.specs.CursorState.{IsSyntaxHere};
ghost use Rattle.parser_tables.specs.Outcomes.{MakesAs};
ghost use Rattle.std.specs.Bool.{OnTrue, OnFalse};
ghost use Rattle.tokens.specs.Scanned.{token_of};
ghost use Rattle.tokens.specs.declared.token.Goal.TheVariants.{Div};
ghost use Rattle.language.specs.Languages.{is_of_2022};
ghost use Rattle.language.specs.Token.{as_read, same_class};
ghost use Rattle.language.specs.Vocabulary.{is};
ghost use Rattle.token_cursor.specs.Seen.{Sees, Misses, SeesBy, MissesBy, TokenHere};
ghost use Rattle.parser_tables.specs.Tests.{is_key, begins_key};
ghost use Rattle.token_cursor.specs.SourceText.{unseen, behind_in};
ghost use Rattle.recursive_descent.specs.Modifiers.{Modified, Accessed, MethodWords, Modifying, follows_async, form_with};
ghost use Rattle.recursive_descent.specs.Soundness.{Adds};
ghost use Rattle.recursive_descent.specs.SoundnessOfLists.{NamedSo, defined, ItemReads, ValueAt};
ghost use Rattle.token_cursor.specs.Refusals.{IsLimit, IsRefusal};
ghost use Rattle.parser_tables.specs.Tokens.{key_node};
ghost use Rattle.tree.specs.Tree.{height, Parts, push};
ghost use Rattle.recursive_descent.specs.Spelled.{OfLanguage};
ghost use Rattle.recursive_descent.specs.Later.{FormOfLanguage};

use crate::lists::element;
use crate::parser::Parser;
use crate::primary::token_node;
use crate::token_tests::span_from;
use covers::{CoverShape, ListItem};
use parser_tables::{
    ExpressionContext, FunctionOrClass, is_constructor, method_form, property_flags, property_item,
};
use productions::{MeasuredNode, MeasuredParts, finish_node, finish_plain};
use source_text::Fault;
use token_cursor::{
    begins_key, is_identifier, is_key_class, is_name_token, is_private_name, is_punctuator,
};
use tokens::{Goal, Token, TokenClass};
use tree::{Flags, Form, Kind, TreeBuilder};

/// A PropertyName (12.2.6) that was read, and what its property must know of it.
#[derive(Drop)]
pub(crate) struct PropertyName<'s> {
    pub(crate) node: MeasuredNode,
    // It stands in brackets.
    pub(crate) computed: bool,
    // The token that it is, if it is one.
    pub(crate) token: Option<Token<'s>>,
    // It isn't computed, and its value is `constructor`; looked for in a class alone.
    is_constructor: bool,
}

/// The `static`, `get`, `set`, `async` and `*` before a property's name (14.3, 14.6; 15.5 to 15.8 of the 13th edition): the form is Get, Set,
/// that of a generator or async function, or Method. `name` is the one of these words that is itself the name.
#[derive(Clone, Copy)]
struct Modifiers<'s> {
    is_static: bool,
    form: Form,
    name: Option<Token<'s>>,
}

/// The modifiers with this form; a method's if the word was the name itself.
fn unless_name(is_static: bool, form: Form, name: Option<Token<'_>>) -> Modifiers<'_>
    ensures handed { result.is_static ≡ is_static }
    ensures form { result.form ≡ form_with name.entry form }
    ensures name { result.name ≡ name.entry }
{
    let form = match name.is_some() {
        true => Form::Method,
        false => form,
    };
    Modifiers {
        is_static,
        form,
        name,
    }
}

impl<'t, 's> Parser<'t, 's> {
    /// Whether a PropertyName stands ahead (12.2.6).
    fn sees_key(&self) -> bool
        ensures seen { OnTrue result (SeesBy self.now.cursor.text Div begins_key self.now.cursor.last) }
        ensures missed { OnFalse result (MissesBy self.now.cursor.text Div begins_key self.now.cursor.last) }
    {
        match self.cursor.peek(Goal::Div) {
            Some(token) => begins_key(&token),
            None => false,
        }
    }

    /// Goes past this word before a property's name, if it stands ahead; answers its token if it is the name itself.
    fn modifier(&mut self, word: &str) -> Option<Option<Token<'s>>>
        ensures text { self.new.cursor.text ≡ self.old.cursor.text }
        ensures forward { self.old.cursor.last.stop ≤ self.new.cursor.last.stop }
        ensures same_tree { self.new.tree ≡ self.old.tree }
        ensures same_open { self.new.cursor.opened ≡ self.old.cursor.opened }
        ensures same_pairs { self.new.pairs.items ≡ self.old.pairs.items }
        ensures modified { Modified self.old.cursor.text word.now self.old.cursor.last self.new.cursor.last result }
        ensures passes { IfSome result (λ _. Passes self.old.cursor self.new.cursor) }
    {
        let Some(token) = self.cursor.peek(Goal::Div) else {
            return None;
        };
        if !is_name_token(&token, word) {
            return None;
        }
        self.advance(token);
        match self.sees_key() || self.sees_static_generator(word) {
            true => Some(None),
            false => Some(Some(token)),
        }
    }

    /// Whether the `*` of a generator stands ahead, where this word, which was passed, is `static` (15.5 of the 13th edition).
    fn sees_static_generator(&self, word: &str) -> bool
        ensures seen { OnTrue result ((is_of_2022 self.now.cursor.text.language ≡ true) × (is word.now "static" ≡ true) × Sees self.now.cursor.text TokenClass.Punctuator (codes "*") self.now.cursor.last) }
        ensures missed { OnFalse result (is_of_2022 self.now.cursor.text.language ≡ true → is word.now "static" ≡ true → Misses self.now.cursor.text TokenClass.Punctuator (codes "*") self.now.cursor.last) }
    {
        self.cursor.is_of_2022() && word == "static" && self.sees_punctuator("*")
    }

    /// Reads `get` or `set` before a property's name, if it is there (14.3).
    fn accessor(&mut self, is_static: bool) -> Modifiers<'s>
        ensures text { self.new.cursor.text ≡ self.old.cursor.text }
        ensures forward { self.old.cursor.last.stop ≤ self.new.cursor.last.stop }
        ensures same_tree { self.new.tree ≡ self.old.tree }
        ensures same_open { self.new.cursor.opened ≡ self.old.cursor.opened }
        ensures same_pairs { self.new.pairs.items ≡ self.old.pairs.items }
        ensures handed { result.is_static ≡ is_static }
        ensures accessed { Accessed self.old.cursor.text self.old.cursor.last self.new.cursor.last result.form result.name }
        ensures passes { IfSome result.name (λ _. Passes self.old.cursor self.new.cursor) }
    {
        if let Some(name) = self.modifier("get") {
            return unless_name(is_static, Form::Get, name);
        }
        if let Some(name) = self.modifier("set") {
            return unless_name(is_static, Form::Set, name);
        }
        if self.cursor.is_of_2022() {
            return self.method_words(is_static);
        }
        unless_name(is_static, Form::Method, None)
    }

    /// Reads `async` and `*` before a property's name, as far as they are there (15.5 to 15.8 of the 13th edition).
    fn method_words(&mut self, is_static: bool) -> Modifiers<'s>
        requires { is_of_2022 self.old.cursor.text.language ≡ true }
        ensures text { self.new.cursor.text ≡ self.old.cursor.text }
        ensures forward { self.old.cursor.last.stop ≤ self.new.cursor.last.stop }
        ensures same_tree { self.new.tree ≡ self.old.tree }
        ensures same_open { self.new.cursor.opened ≡ self.old.cursor.opened }
        ensures same_pairs { self.new.pairs.items ≡ self.old.pairs.items }
        ensures handed { result.is_static ≡ is_static }
        ensures words { MethodWords self.old.cursor.text self.old.cursor.last self.new.cursor.last result.form result.name }
        ensures passes { IfSome result.name (λ _. Passes self.old.cursor self.new.cursor) }
    {
        let mut form = Form::Method;
        if let Some(token) = self.cursor.peek(Goal::Div) {
            if is_name_token(&token, "async") {
                self.advance(token);
                if !self.sees_async_method() {
                    return unless_name(is_static, Form::Method, Some(token));
                }
                form = Form::Async;
            }
        }
        unless_name(is_static, self.starred(form), None)
    }

    /// Whether on the line of an `async` that was passed a key or `*` stands ahead.
    fn sees_async_method(&self) -> bool
        ensures seen { OnTrue result (SeesBy self.now.cursor.text Div follows_async self.now.cursor.last) }
        ensures missed { OnFalse result (MissesBy self.now.cursor.text Div follows_async self.now.cursor.last) }
    {
        match self.cursor.peek(Goal::Div) {
            Some(token) => {
                !token.after_break && (begins_key(&token) || is_punctuator(&token, "*"))
            }
            None => false,
        }
    }

    /// Reads `static`, in a class, and then `get` or `set` before a property's name, as far as they are there (14.3,
    /// 14.6).
    fn modifiers(&mut self, in_class: bool) -> Modifiers<'s>
        ensures text { self.new.cursor.text ≡ self.old.cursor.text }
        ensures forward { self.old.cursor.last.stop ≤ self.new.cursor.last.stop }
        ensures same_tree { self.new.tree ≡ self.old.tree }
        ensures same_open { self.new.cursor.opened ≡ self.old.cursor.opened }
        ensures same_pairs { self.new.pairs.items ≡ self.old.pairs.items }
        ensures modified { Modifying self.old.cursor.text self.old.cursor.last self.new.cursor.last in_class result.is_static result.form result.name }
        ensures passes { IfSome result.name (λ _. Passes self.old.cursor self.new.cursor) }
    {
        if !in_class {
            return self.accessor(false);
        }
        match self.modifier("static") {
            None => self.accessor(false),
            Some(None) => self.accessor(true),
            Some(Some(name)) => unless_name(false, Form::Method, Some(name)),
        }
    }

    /// Takes the name, string or number that is a LiteralPropertyName (12.2.6), or in a class a private name (15.7 of the 13th edition).
    fn key_token(&mut self, in_class: bool) -> Result<Token<'s>, Fault>
        ensures text { self.new.cursor.text ≡ self.old.cursor.text }
        ensures forward { self.old.cursor.last.stop ≤ self.new.cursor.last.stop }
        ensures same_tree { self.new.tree ≡ self.old.tree }
        ensures passes { IfOk result (λ _. Passes self.old.cursor self.new.cursor) }
        ensures refused { IfErr result (IsRefusal self.new.cursor.text) }
        ensures same_open { self.new.cursor.opened ≡ self.old.cursor.opened }
        ensures same_pairs { self.new.pairs.items ≡ self.old.pairs.items }
        ensures accepted { IfOk result (λ token. TokenHere self.old.cursor.text Div (is_key self.old.cursor.text in_class) self.old.cursor.last self.new.cursor.last × (self.new.cursor.last ≡ unseen (as_read (token_of token))) × (behind_in self.old.cursor.text self.new.cursor.last ≡ as_read (token_of token))) }
        ensures missed { IfErr result (λ _. MissesBy self.old.cursor.text Div (is_key self.old.cursor.text in_class) self.old.cursor.last × (self.new.cursor.last ≡ self.old.cursor.last)) }
        ensures here { IfErr result (IsSyntaxHere self.new.cursor) }
    {
        let Some(token) = self.cursor.peek(Goal::Div) else {
            return Err(self.syntax_error());
        };
        if !is_key_class(token.class) && !self.is_private_key(&token, in_class) {
            return Err(self.syntax_error());
        }
        self.advance(token);
        Ok(token)
    }

    /// Whether the token is a private name that may be a key.
    fn is_private_key(&self, token: &Token<'s>, in_class: bool) -> bool
        ensures { result ≡ (in_class && (is_of_2022 self.now.cursor.text.language && same_class TokenClass.PrivateName token.now.class)) }
    {
        in_class && self.cursor.is_of_2022() && is_private_name(token)
    }

    /// Reads a LiteralPropertyName (12.2.6): one that isn't in brackets.
    fn plain_property_name(&mut self, in_class: bool, high: u32) -> Result<PropertyName<'s>, Fault>
        ensures text { self.new.cursor.text ≡ self.old.cursor.text }
        ensures forward { self.old.cursor.last.stop ≤ self.new.cursor.last.stop }
        ensures waits { IfOk result (λ key. self.new.tree ≡ push self.old.tree key.node) }
        ensures passes { IfOk result (λ _. Passes self.old.cursor self.new.cursor) }
        ensures refused { IfErr result (IsRefusal self.new.cursor.text) }
        ensures same_open { self.new.cursor.opened ≡ self.old.cursor.opened }
        ensures same_pairs { self.new.pairs.items ≡ self.old.pairs.items }
        ensures read { IfOk result (λ key. TokenHere self.old.cursor.text Div (is_key self.old.cursor.text in_class) self.old.cursor.last self.new.cursor.last × KeyRead self.old.cursor.text in_class self.new.cursor.last key key.token) }
        ensures low { IfOk result (λ key. height key.node ≤ high) }
        ensures own { IfOk result (λ key. OfLanguage self.old.cursor.text key.node) }
        ensures no_key { IfErr result (NoKey in_class self.old.cursor high) }
    {
        let token = self.key_token(in_class)?;
        let is_constructor = in_class && is_constructor(&token);
        property_name_of(&mut self.tree, token, is_constructor, high)
    }

    /// Reads the modifiers of a property or a member, and its PropertyName (12.2.6, 14.3, 14.6).
    #[cycle(grammar)]
    #[inline(never)]
    fn property_name(
        &mut self,
        in_class: bool,
        high: u32,
    ) -> Result<(Modifiers<'s>, PropertyName<'s>), Fault>
        ensures text { self.new.cursor.text ≡ self.old.cursor.text }
        ensures forward { self.old.cursor.last.stop ≤ self.new.cursor.last.stop }
        ensures waits { IfOk result (λ named. self.new.tree ≡ push self.old.tree named.1.node) }
        ensures passes { IfOk result (λ _. Passes self.old.cursor self.new.cursor) }
        ensures derived { IfOk result (λ named. Adds self.old.cursor self.new.cursor self.old.pairs.items self.new.pairs.items (NamedSo self.old.cursor.text in_class named.0 named.1)) }
        ensures low { IfOk result (λ named. height named.1.node ≤ high) }
        ensures own { IfOk result (λ named. OfLanguage self.old.cursor.text named.1.node) }
        ensures form { IfOk result (λ named. FormOfLanguage self.old.cursor.text named.0.form) }
        ensures complete { NameComplete self.old.cursor self.new.cursor self.old.pairs.items self.new.pairs.items high in_class result }
        ensures refused { IfErr result (IsRefusal self.new.cursor.text) }
    {
        let modifiers = self.modifiers(in_class);
        if let Some(token) = modifiers.name {
            let key = property_name_of(&mut self.tree, token, false, high)?;
            return Ok((modifiers, key));
        }
        if !self.accept_punctuator("[") {
            let key = self.plain_property_name(in_class, high)?;
            return Ok((modifiers, key));
        }
        let part = self.expression(ExpressionContext::ASSIGNMENT, high)?;
        let node = self.into_expression(part)?;
        self.expect_punctuator("]")?;
        let key = PropertyName {
            node,
            computed: true,
            token: None,
            is_constructor: false,
        };
        Ok((modifiers, key))
    }

    /// A property of an object or its pattern, or a member of a class (12.2.6, 14.3, 14.6).
    #[cycle(grammar)]
    #[inline(never)]
    pub(crate) fn property_or_member(
        &mut self,
        in_class: bool,
        high: u32,
    ) -> Result<ListItem, Fault>
        ensures text { self.new.cursor.text ≡ self.old.cursor.text }
        ensures forward { self.old.cursor.last.stop ≤ self.new.cursor.last.stop }
        ensures waits { IfOk result (λ item. self.new.tree ≡ push self.old.tree item.node) }
        ensures passes { IfOk result (λ _. Passes self.old.cursor self.new.cursor) }
        ensures derived { IfOk result (λ item. Adds self.old.cursor self.new.cursor self.old.pairs.items self.new.pairs.items (ItemReads self.old.cursor.text (defined in_class) item)) }
        ensures low { IfOk result (λ item. height item.node ≤ high) }
        ensures own { IfOk result (λ item. OfLanguage self.old.cursor.text item.node) }
        ensures complete { PropertyOrMemberComplete self.old.cursor self.new.cursor self.old.pairs.items self.new.pairs.items high in_class result }
        ensures refused { IfErr result (IsRefusal self.new.cursor.text) }
    {
        let start = self.cursor.next_start();
        let inner = high.saturating_sub(1);
        if !in_class && self.accept_punctuator("...") {
            let argument = self.expression(ExpressionContext::ASSIGNMENT, inner)?;
            let shape = argument.cover.shape.simple();
            let mut item = element(&self.cursor, &mut self.tree, argument, true, start, high)?;
            item.shape = shape;
            return Ok(item);
        }
        if in_class && self.begins_static_block() {
            return self.static_block(start, high);
        }
        let (modifiers, key) = self.property_name(in_class, inner)?;
        let is_method = (in_class && !self.cursor.is_of_2022())
            || !matches!(modifiers.form, Form::Method)
            || self.sees_punctuator("(");
        if !is_method {
            return match in_class {
                true => self.field(key, modifiers.is_static, start, high),
                false => self.property_value(key, start, high),
            };
        }
        let from = self.cursor.next_start();
        let function = self.function_or_class(
            FunctionOrClass::Method(modifiers.form),
            from,
            inner,
        )?;
        let (kind, flags) = method_kind(in_class, &key, modifiers);
        let nodes = MeasuredParts::two(key.node, function);
        let span = span_from(&self.cursor, start);
        let node = finish_node(&mut self.tree, kind, "", flags, span, nodes, high)?;
        Ok(ListItem::plain(node))
    }

    /// Reads the value of an object's property after its key: after a `:`, or by the shorthand (12.2.6).
    #[cycle(grammar)]
    #[inline(never)]
    fn property_value(
        &mut self,
        key: PropertyName<'s>,
        start: usize,
        high: u32,
    ) -> Result<ListItem, Fault>
        ensures text { self.new.cursor.text ≡ self.old.cursor.text }
        ensures forward { self.old.cursor.last.stop ≤ self.new.cursor.last.stop }
        ensures waits { (base : Parts) → self.old.tree ≡ push base key.entry.node → IfOk result (λ item. self.new.tree ≡ push base item.node) }
        ensures derived { IfOk result (λ item. Adds self.old.cursor self.new.cursor self.old.pairs.items self.new.pairs.items (ValueAt self.old.cursor.text key.entry start item)) }
        ensures low { IfOk result (λ item. height item.node ≤ high) }
        ensures own { IfOk result (λ item. OfLanguage self.old.cursor.text key.entry.node → OfLanguage self.old.cursor.text item.node) }
        ensures complete { ValueComplete self.old.cursor self.new.cursor self.old.pairs.items self.new.pairs.items high key.entry result }
        ensures refused { IfErr result (IsRefusal self.new.cursor.text) }
    {
        let inner = high.saturating_sub(1);
        if self.accept_punctuator(":") {
            let value = self.expression(ExpressionContext::ASSIGNMENT, inner)?;
            let shape = value.cover.shape;
            let flags = property_flags(key.computed, false, Form::Init);
            let nodes = MeasuredParts::two(key.node, value.cover.node);
            let span = span_from(&self.cursor, start);
            let node = finish_node(&mut self.tree, Kind::Property, "", flags, span, nodes, high)?;
            return Ok(property_item(node, shape));
        }
        let Some(token) = key.token else {
            return Err(self.syntax_error());
        };
        if !is_identifier(&token) {
            return Err(self.syntax_error());
        }
        let mut shape = CoverShape::NAME;
        let mut value = token_node(&mut self.tree, Kind::Identifier, token, inner)?;
        if self.accept_punctuator("=") {
            let right = self.expression(ExpressionContext::ASSIGNMENT, inner.saturating_sub(1))?;
            let nodes = MeasuredParts::two(value, self.into_expression(right)?);
            let span = span_from(&self.cursor, token.start);
            value = finish_node(
                &mut self.tree,
                Kind::AssignmentExpression,
                "=",
                Flags::PLAIN,
                span,
                nodes,
                inner,
            )?;
            shape = CoverShape::NAME.defaulted().initialized();
        }
        let flags = property_flags(false, false, Form::Shorthand);
        let nodes = MeasuredParts::two(key.node, value);
        let span = span_from(&self.cursor, start);
        let node = finish_node(&mut self.tree, Kind::Property, "", flags, span, nodes, high)?;
        Ok(property_item(node, shape))
    }
}

/// The kind and flags of a method, getter or setter; in a class, the method called `constructor` is the constructor.
fn method_kind(in_class: bool, key: &PropertyName<'_>, modifiers: Modifiers<'_>) -> (Kind, Flags)
    ensures kind { result.0 ≡ member_kind in_class }
    ensures flags { result.1 ≡ member_flags key.now.computed modifiers.entry.is_static (method_form modifiers.entry.is_static modifiers.entry.form key.now.is_constructor) }
{
    let is_static = modifiers.is_static;
    let form = method_form(is_static, modifiers.form, key.is_constructor);
    let kind = match in_class {
        true => Kind::MethodDefinition,
        false => Kind::Property,
    };
    (kind, property_flags(key.computed, is_static, form))
}

/// The PropertyName that a token makes: a name, a string or a number.
fn property_name_of<'s>(
    tree: &mut TreeBuilder<'s>,
    token: Token<'s>,
    is_constructor: bool,
    high: u32,
) -> Result<PropertyName<'s>, Fault>
    ensures made { let node = key_node (token_of token.entry) in
        MakesAs (record { node = node; computed = false; token = Some token.entry; is_constructor = is_constructor }) (height node) high result }
    ensures waits { IfOk result (λ key. tree.new ≡ push tree.old key.node) }
    ensures refused { IfErr result IsLimit }
{
    let node = match token.class {
        TokenClass::IdentifierName | TokenClass::Keyword => {
            token_node(tree, Kind::Identifier, token, high)?
        }
        TokenClass::PrivateName => token_node(tree, Kind::PrivateIdentifier, token, high)?,
        _ => token_node(tree, Kind::Literal, token, high)?,
    };
    Ok(PropertyName {
        node,
        computed: false,
        token: Some(token),
        is_constructor,
    })
}
