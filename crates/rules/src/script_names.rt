//! Names that scripts of Node, CommonJS, ECMAScript 2022, Mocha and Jest have.

ghost use Rattle.std.specs.Prelude.{◌≡◌};
ghost use Rattle.rules.specs.EnvironmentNames.{is_commonjs_name, is_es2022_name, is_jest_name, is_mocha_name, is_node_name};

use crate::sorted_names::is_among;

/// Node's global objects (its documentation, "Global objects", version 22).
static NODE_NAMES: [&str; 79] = [
    "AbortController",
    "AbortSignal",
    "Blob",
    "BroadcastChannel",
    "Buffer",
    "ByteLengthQueuingStrategy",
    "CloseEvent",
    "CompressionStream",
    "CountQueuingStrategy",
    "Crypto",
    "CryptoKey",
    "CustomEvent",
    "DOMException",
    "DecompressionStream",
    "Event",
    "EventSource",
    "EventTarget",
    "File",
    "FormData",
    "Headers",
    "Intl",
    "MessageChannel",
    "MessageEvent",
    "MessagePort",
    "Navigator",
    "Performance",
    "PerformanceEntry",
    "PerformanceMark",
    "PerformanceMeasure",
    "PerformanceObserver",
    "PerformanceObserverEntryList",
    "PerformanceResourceTiming",
    "ReadableByteStreamController",
    "ReadableStream",
    "ReadableStreamBYOBReader",
    "ReadableStreamBYOBRequest",
    "ReadableStreamDefaultController",
    "ReadableStreamDefaultReader",
    "Request",
    "Response",
    "Storage",
    "SubtleCrypto",
    "TextDecoder",
    "TextDecoderStream",
    "TextEncoder",
    "TextEncoderStream",
    "TransformStream",
    "TransformStreamDefaultController",
    "URL",
    "URLSearchParams",
    "WebAssembly",
    "WebSocket",
    "WritableStream",
    "WritableStreamDefaultController",
    "WritableStreamDefaultWriter",
    "__dirname",
    "__filename",
    "atob",
    "btoa",
    "clearImmediate",
    "clearInterval",
    "clearTimeout",
    "console",
    "crypto",
    "exports",
    "fetch",
    "global",
    "localStorage",
    "module",
    "navigator",
    "performance",
    "process",
    "queueMicrotask",
    "require",
    "sessionStorage",
    "setImmediate",
    "setInterval",
    "setTimeout",
    "structuredClone",
];

/// Whether the name is one of a global object of Node.
pub(crate) fn is_node_name(name: &str) -> bool
    ensures { result ≡ is_node_name name.now }
{
    is_among(name, NODE_NAMES.as_slice())
}

/// What a module of CommonJS has (Modules/1.1.1).
static COMMONJS_NAMES: [&str; 3] = ["exports", "module", "require"];

/// Whether the name is one that modules of CommonJS have.
pub(crate) fn is_commonjs_name(name: &str) -> bool
    ensures { result ≡ is_commonjs_name name.now }
{
    is_among(name, COMMONJS_NAMES.as_slice())
}

/// What ECMA-262, 13th edition, has beside the built-in names (clause 19, B.2.1).
static ES2022_NAMES: [&str; 5] = [
    "AggregateError",
    "FinalizationRegistry",
    "WeakRef",
    "escape",
    "unescape",
];

/// Whether the name is one that ECMAScript 2022 has beside the built-in ones.
pub(crate) fn is_es2022_name(name: &str) -> bool
    ensures { result ≡ is_es2022_name name.now }
{
    is_among(name, ES2022_NAMES.as_slice())
}

/// Mocha's interfaces BDD and TDD (its documentation, "Interfaces" and "Delayed root suite").
static MOCHA_NAMES: [&str; 20] = [
    "after",
    "afterEach",
    "before",
    "beforeEach",
    "context",
    "describe",
    "it",
    "mocha",
    "run",
    "setup",
    "specify",
    "suite",
    "suiteSetup",
    "suiteTeardown",
    "teardown",
    "test",
    "xcontext",
    "xdescribe",
    "xit",
    "xspecify",
];

/// Whether the name is one of Mocha's interfaces BDD and TDD.
pub(crate) fn is_mocha_name(name: &str) -> bool
    ensures { result ≡ is_mocha_name name.now }
{
    is_among(name, MOCHA_NAMES.as_slice())
}

/// Jest's globals (its documentation, "Globals", "The Jest object", "Expect").
static JEST_NAMES: [&str; 14] = [
    "afterAll",
    "afterEach",
    "beforeAll",
    "beforeEach",
    "describe",
    "expect",
    "fdescribe",
    "fit",
    "it",
    "jest",
    "test",
    "xdescribe",
    "xit",
    "xtest",
];

/// Whether the name is one of Jest's globals.
pub(crate) fn is_jest_name(name: &str) -> bool
    ensures { result ≡ is_jest_name name.now }
{
    is_among(name, JEST_NAMES.as_slice())
}
