//! The key under which a script's names are hashed.

ghost use Rattle.std.specs.Prelude.{◌≡◌, option_map};
ghost use Rattle.tree.specs.Node.{node_tree};
ghost use Rattle.name_tables.specs.PatternParts.{at_part};
ghost use Rattle.name_tables.specs.Keys.{declarable_among, declarable_names, identifier_name, key_of, keyed_by, may_declare, nothing_read, read_name, read_names};

use std::hash::{BuildHasher, DefaultHasher, Hash, Hasher};
use tree::{Kind, Node, Program};

/// The key under which a table hashes its names, by SipHash. It is drawn before the first look-up from all names that can get
/// into the table: who writes a script chooses its names, but with each choice the key is another. No answer depends on it.
#[derive(Clone, Copy)]
pub struct HashKey {
    /// What each hash begins with: a hasher that has read the key.
    keyed: DefaultHasher,
}

impl HashKey {
    /// The key that is drawn from all names of a script that its scopes may declare.
    pub fn drawn_from(program: &Program) -> HashKey
        ensures { result.keyed ≡ key_of (declarable_names program.now) }
    {
        let mut builder = KeyBuilder::new();
        for number in 0..program.node_count() {
            add_declarable_names(program.node(number), &mut builder);
        }
        builder.build()
    }
}

/// Draws a key from names, one by one.
#[derive(Clone, Copy)]
pub struct KeyBuilder {
    /// A hasher that has read the names.
    hasher: DefaultHasher,
}

impl KeyBuilder {
    /// No names yet.
    pub fn new() -> KeyBuilder
        ensures { result.hasher ≡ nothing_read }
    {
        KeyBuilder {
            hasher: DefaultHasher::new(),
        }
    }

    /// One more name.
    pub fn add(&mut self, name: &str)
        ensures { self.new.hasher ≡ read_name self.old.hasher name.now }
    {
        name.hash(&mut self.hasher);
    }

    /// The key that the names give.
    pub fn build(mut self) -> HashKey
        ensures { result.keyed ≡ keyed_by self.hasher }
    {
        let first = self.hasher.finish();
        self.hasher.write_u64(first);
        let second = self.hasher.finish();
        let mut keyed = DefaultHasher::new();
        keyed.write_u64(first);
        keyed.write_u64(second);
        HashKey { keyed }
    }
}

impl BuildHasher for HashKey {
    /// The hasher that starts from the key.
    type Hasher = DefaultHasher;

    ghost build_hasher = { λ key. key.keyed };

    /// A hasher that starts from the key.
    fn build_hasher(&self) -> DefaultHasher {
        self.keyed
    }
}

/// Draws the names among a node's parts, where scopes may declare them.
fn add_declarable_names(node: Node, builder: &mut KeyBuilder)
    ensures { builder.new.hasher ≡ read_names builder.old.hasher (declarable_among (node_tree node.entry)) }
{
    if !may_declare(node.kind()) {
        return;
    }
    let parts = node.parts();
    for index in 0..parts.len() {
        add_name(parts.get(index), builder);
    }
}

/// Draws a part that is a name.
fn add_name(part: Option<Node>, builder: &mut KeyBuilder)
    ensures { builder.new.hasher ≡ read_names builder.old.hasher (at_part identifier_name (option_map node_tree part.entry)) }
{
    let Some(part) = part else {
        return;
    };
    if part.kind().is_identifier() {
        builder.add(part.text());
    }
}

/// Whether a name that is a part of such a node may be one that a scope declares.
fn may_declare(kind: Kind) -> bool
    ensures { result ≡ may_declare kind }
{
    match kind {
        Kind::VariableDeclarator
        | Kind::FunctionDeclaration
        | Kind::FunctionExpression
        | Kind::ArrowFunctionExpression
        | Kind::ClassDeclaration
        | Kind::ClassExpression
        | Kind::CatchClause
        | Kind::ArrayPattern
        | Kind::ObjectPattern
        | Kind::Property
        | Kind::RestElement
        | Kind::AssignmentPattern
        | Kind::ImportSpecifier
        | Kind::ImportDefaultSpecifier
        | Kind::ImportNamespaceSpecifier => true,
        _ => false,
    }
}
