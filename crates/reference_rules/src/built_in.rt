//! The names that every script has without declaring them (ECMA-262 clause 18).

ghost use Rattle.std.specs.Prelude.{◌≡◌};
ghost use Rattle.reference_rules.specs.BuiltIn.{is_array, is_built_in, is_built_in_for, is_error, is_further_object, is_global_function, is_later_object, is_other_object, is_value};

/// Whether the name is that of a value property of the global object (ECMA-262 18.1).
fn is_value(name: &str) -> bool
    ensures { result ≡ is_value name.now }
{
    name == "globalThis" || name == "Infinity" || name == "NaN" || name == "undefined"
}

/// Whether the name is that of a function property of the global object (18.2).
fn is_global_function(name: &str) -> bool
    ensures { result ≡ is_global_function name.now }
{
    name == "eval"
        || name == "isFinite"
        || name == "isNaN"
        || name == "parseFloat"
        || name == "parseInt"
        || name == "decodeURI"
        || name == "decodeURIComponent"
        || name == "encodeURI"
        || name == "encodeURIComponent"
}

/// Whether the name is that of a constructor of errors (19.5).
fn is_error(name: &str) -> bool
    ensures { result ≡ is_error name.now }
{
    name == "Error"
        || name == "EvalError"
        || name == "RangeError"
        || name == "ReferenceError"
        || name == "SyntaxError"
        || name == "TypeError"
        || name == "URIError"
}

/// `Array`, and the objects that hold or view bytes.
fn is_array(name: &str) -> bool
    ensures { result ≡ is_array name.now }
{
    name == "Array"
        || name == "ArrayBuffer"
        || name == "BigInt64Array"
        || name == "BigUint64Array"
        || name == "DataView"
        || name == "Float32Array"
        || name == "Float64Array"
        || name == "Int8Array"
        || name == "Int16Array"
        || name == "Int32Array"
        || name == "SharedArrayBuffer"
        || name == "Uint8Array"
        || name == "Uint8ClampedArray"
        || name == "Uint16Array"
        || name == "Uint32Array"
}

/// The first half of the other objects.
fn is_other_object(name: &str) -> bool
    ensures { result ≡ is_other_object name.now }
{
    name == "BigInt"
        || name == "Boolean"
        || name == "Date"
        || name == "Function"
        || name == "Map"
        || name == "Number"
        || name == "Object"
        || name == "Promise"
        || name == "Proxy"
}

/// The second half.
fn is_further_object(name: &str) -> bool
    ensures { result ≡ is_further_object name.now }
{
    name == "Reflect"
        || name == "RegExp"
        || name == "Set"
        || name == "String"
        || name == "Symbol"
        || name == "WeakMap"
        || name == "WeakSet"
        || name == "Atomics"
        || name == "JSON"
        || name == "Math"
}

/// Whether every script has the name.
#[tactic(auto, unfolding(crate::specs::BuiltIn::is_built_in))]
fn is_built_in(name: &str) -> bool
    ensures { result ≡ is_built_in name.now }
{
    is_value(name)
        || is_global_function(name)
        || is_error(name)
        || is_array(name)
        || is_other_object(name)
        || is_further_object(name)
}

/// What the 12th edition added.
fn is_later_object(name: &str) -> bool
    ensures { result ≡ is_later_object name.now }
{
    name == "AggregateError" || name == "FinalizationRegistry" || name == "WeakRef"
}

/// Whether a script of the base profile has the name, or one of the language of 2022.
pub fn is_built_in_for(is_2022: bool, name: &str) -> bool
    ensures { result ≡ is_built_in_for is_2022 name.now }
{
    is_built_in(name) || (is_2022 && is_later_object(name))
}
