//! The HTML document that dumps are parts of.

/// The beginning of a document of dumps: it is one file, which loads nothing and has no script.
pub const HTML_BEGIN: &str = "\
<!DOCTYPE html>
<html lang=\"en\">
<head>
<meta charset=\"utf-8\">
<meta http-equiv=\"Content-Security-Policy\" content=\"default-src 'none'; style-src 'unsafe-inline'\">
<meta name=\"viewport\" content=\"width=device-width, initial-scale=1\">
<meta name=\"color-scheme\" content=\"light dark\">
<title>Messages of the ISO interlibrary loan protocol</title>
<style>
:root {
  --paper: #ffffff; --ground: #f4f5f7; --ink: #1b1f24; --dim: #5a6472; --line: #d9dde3;
  --universal: #5a6472; --application: #7a3fb0; --context: #1f5fbf; --private: #a1401a; --length: #0a706b;
  --value: #1c6b2f; --good: #1c6b2f; --warn: #8a5200; --warn-soft: #fcefd6; --bad: #b3261e; --bad-soft: #fce7e5;
}
@media screen and (prefers-color-scheme: dark) { :root {
  --paper: #14171c; --ground: #0d0f13; --ink: #e6e9ee; --dim: #9aa5b4; --line: #2b313b;
  --universal: #9aa5b4; --application: #c79bf2; --context: #7fb1ff; --private: #f0a27f; --length: #5fd0c6;
  --value: #86d69a; --good: #86d69a; --warn: #f2c063; --warn-soft: #35290f; --bad: #ff9b92; --bad-soft: #3b1a18;
} }
* { box-sizing: border-box; }
body { margin: 0; padding: 16px; background: var(--ground); color: var(--ink); font: 13.5px/1.5 ui-monospace, \"Cascadia Mono\", Menlo, Consolas, \"DejaVu Sans Mono\", monospace; }
section { margin: 0 0 16px; padding: 12px 16px; background: var(--paper); border: 1px solid var(--line); border-radius: 8px; overflow-x: auto; }
h2 { margin: 0 0 8px; font-size: 15px; white-space: pre-wrap; overflow-wrap: anywhere; }
h2 .good { color: var(--good); } h2 .warn { color: var(--warn); } h2 .bad, .refused b { color: var(--bad); }
.row { display: grid; grid-template-columns: minmax(30ch, 3fr) minmax(12ch, 1fr); gap: 0 2ch; border-bottom: 1px solid var(--ground); }
.row > span { white-space: pre-wrap; overflow-wrap: anywhere; }
.row code { font: inherit; color: var(--dim); overflow-wrap: anywhere; }
summary { list-style: none; cursor: pointer; }
summary::-webkit-details-marker { display: none; }
details:not([open]) > summary { background: var(--ground); }
.at { color: var(--dim); }
.c0 { color: var(--universal); } .c1 { color: var(--application); } .c2 { color: var(--context); } .c3 { color: var(--private); }
.len { color: var(--length); }
.name { font-weight: 600; }
.value { color: var(--value); }
.note { color: var(--warn); background: var(--warn-soft); }
.refused { margin: 6px 0; padding: 8px 12px; border-left: 4px solid var(--bad); background: var(--bad-soft); white-space: pre-wrap; overflow-wrap: anywhere; }
.rest .name { font-weight: 400; color: var(--dim); }
@media (max-width: 700px) { .row { grid-template-columns: 1fr; } }
@media print { body { padding: 0; background: none; } section { border: 0; overflow: visible; } .row, .refused { break-inside: avoid; } }
</style>
</head>
<body>
";

/// The end of a document of dumps.
pub const HTML_END: &str = "</body>\n</html>\n";
