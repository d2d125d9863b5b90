//! The key of settings that doesn't fit, as a line shows it.

ghost use Rattle.std.specs.Prelude.{◌≡◌, ◌≤◌, ◌<◌, ◌+◌, ◌++◌, codes, length, map, take};
ghost use Rattle.std.specs.Fmt.{signed_decimal};
ghost use Rattle.arrayvec.specs.ArrayString.{array_string_len};
ghost use Rattle.toml.specs.View.{view};
ghost use Rattle.rules.specs.Misfits.{fault_at, fault_in, fault_text, option_path, rule_path, shown_byte, shown_fault, shown_flag, shown_name, shown_value};

use crate::misfit::Misfit;
use arrayvec::ArrayString;
use itoa::Buffer;
use toml::Value;

/// Room for a key and its value, as a line shows them.
pub(crate) type KeyText = ArrayString<160>;

/// Room for what a line says of a fault.
pub type FaultText = ArrayString<272>;

/// The bytes of a name that are shown, at most.
const MOST_SHOWN: usize = 40;

/// What is wrong with settings: a key, with its value, and why it doesn't fit. It takes no memory of the heap.
#[derive(Clone, Copy)]
pub struct SettingsFault {
    at: KeyText,
    why: Misfit,
}

/// A byte of a name; `?` for one that isn't a letter, a digit, a sign or a space of ASCII.
fn shown_byte(byte: u8) -> char
    ensures shown { result ≡ shown_byte byte }
    ensures ascii { result ≤ 127 }
{
    if matches!(byte, 32..=126) {
        return byte as char;
    }
    '?'
}

/// Adds bytes as they are shown.
fn push_bytes(text: &mut KeyText, bytes: &[u8])
    requires { array_string_len text.old + length bytes.now ≤ 160 }
    ensures bytes { text.new.bytes ≡ text.old.bytes ++ map shown_byte bytes.now }
    ensures len { array_string_len text.new ≡ array_string_len text.old + length bytes.now }
{
    for byte in bytes {
        text.push(shown_byte(*byte));
    }
}

/// The first forty of more bytes.
fn beginning(bytes: &[u8]) -> &[u8]
    requires { 40 < length bytes.now }
    ensures value { result.now ≡ take 40 bytes.now }
    ensures len { length result.now ≡ 40 }
{
    &bytes[..MOST_SHOWN]
}

/// Adds a name, or its first forty bytes and three dots.
fn push_name(text: &mut KeyText, name: &str)
    requires { array_string_len text.old ≤ 117 }
    ensures bytes { text.new.bytes ≡ text.old.bytes ++ shown_name name.now }
    ensures short { array_string_len text.new ≤ array_string_len text.old + 43 }
{
    let bytes = name.as_bytes();
    if bytes.len() <= MOST_SHOWN {
        push_bytes(text, bytes);
        return;
    }
    push_bytes(text, beginning(bytes));
    text.push_str("...");
}

/// Adds a string in quotes.
fn push_string(text: &mut KeyText, string: &str)
    requires { array_string_len text.old ≤ 115 }
    ensures { text.new.bytes ≡ text.old.bytes ++ codes "\"" ++ shown_name string.now ++ codes "\"" }
{
    text.push_str("\"");
    push_name(text, string);
    text.push_str("\"");
}

/// Adds a number.
fn push_integer(text: &mut KeyText, number: i64)
    requires { array_string_len text.old ≤ 115 }
    ensures { text.new.bytes ≡ text.old.bytes ++ signed_decimal number }
{
    let mut digits = Buffer::new();
    text.push_str(digits.format(number));
}

/// A flag as TOML has it.
fn flag_word(flag: bool) -> &'static str
    ensures word { result.now ≡ shown_flag flag }
    ensures short { length result.now ≤ 5 }
{
    if flag { "true" } else { "false" }
}

/// Adds a value: a string, a number or a flag as TOML has it, three dots for another.
fn push_value(text: &mut KeyText, value: &Value)
    requires { array_string_len text.old ≤ 115 }
    ensures { text.new.bytes ≡ text.old.bytes ++ shown_value (view value.now) }
{
    if let Some(string) = value.as_str() {
        push_string(text, string);
        return;
    }
    if let Some(number) = value.as_integer() {
        push_integer(text, number);
        return;
    }
    match value.as_bool() {
        Some(flag) => text.push_str(flag_word(flag)),
        None => text.push_str("..."),
    }
}

/// A name of at most forty bytes, or its beginning, as it is shown.
pub(crate) fn name_text(name: &str) -> KeyText
    ensures text { result.bytes ≡ shown_name name.now }
    ensures short { array_string_len result ≤ 43 }
{
    let mut text = KeyText::new();
    push_name(&mut text, name);
    text
}

/// `rules.` and the name of a rule.
pub(crate) fn rule_text(rule: &str) -> KeyText
    ensures text { result.bytes ≡ rule_path rule.now }
    ensures short { array_string_len result ≤ 49 }
{
    let mut text = KeyText::new();
    text.push_str("rules.");
    push_name(&mut text, rule);
    text
}

/// `rules.`, the name of a rule, a dot, and a key in its table.
pub(crate) fn option_text(rule: &str, key: &str) -> KeyText
    ensures text { result.bytes ≡ option_path rule.now key.now }
    ensures short { array_string_len result ≤ 93 }
{
    let mut text = rule_text(rule);
    text.push_str(".");
    push_name(&mut text, key);
    text
}

/// A key of settings, as it is.
pub(crate) fn key_text(key: &str) -> KeyText
    requires { length key.now ≤ 93 }
    ensures text { result.bytes ≡ key.now }
    ensures short { array_string_len result ≤ 93 }
{
    let mut text = KeyText::new();
    text.push_str(key);
    text
}

impl SettingsFault {
    /// The fault of a key without a value.
    pub(crate) fn bare(at: KeyText, why: Misfit) -> SettingsFault
        ensures { shown_fault result ≡ record { at = at.bytes; why = why } }
    {
        SettingsFault { at, why }
    }

    /// The fault of a key that has a value.
    pub(crate) fn at(key: KeyText, value: &Value, why: Misfit) -> SettingsFault
        requires { array_string_len key ≤ 93 }
        ensures { shown_fault result ≡ fault_at key.bytes (view value.now) why }
    {
        let mut at = key;
        at.push_str(" = ");
        push_value(&mut at, value);
        SettingsFault { at, why }
    }

    /// The fault of a key that has an element in its array.
    pub(crate) fn within(key: KeyText, value: &Value, why: Misfit) -> SettingsFault
        requires { array_string_len key ≤ 93 }
        ensures { shown_fault result ≡ fault_in key.bytes (view value.now) why }
    {
        let mut at = key;
        at.push_str(" has ");
        push_value(&mut at, value);
        SettingsFault { at, why }
    }

    /// Why the key doesn't fit.
    pub fn why(&self) -> Misfit
        ensures { result ≡ (shown_fault self.now).why }
    {
        self.why
    }

    /// What a line says of it: the key, its value and why it doesn't fit.
    pub fn text(&self) -> FaultText
        ensures { result.bytes ≡ fault_text (shown_fault self.now) }
    {
        let mut text = FaultText::new();
        text.push_str(self.at.as_str());
        text.push_str(self.why.words());
        text
    }
}
