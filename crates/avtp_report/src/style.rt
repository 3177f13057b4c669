//! How the page looks: on a screen in light and dark, on a phone, and on paper.

pub static STYLE: &str = "
:root { color-scheme: light dark; --paper: #ffffff; --ink: #1c2430; --faint: #5d6878; --line: #d8dee6; --card: #f6f8fa;
  --lead: #1f5fa8; --gap: #2f7d4f; --loss: #c62f2f; --bad: #a32222; --good: #2f7d4f; }
@media (prefers-color-scheme: dark) { :root { --paper: #14181d; --ink: #e3e8ee; --faint: #97a3b2; --line: #313a45; --card: #1b2128;
  --lead: #7db4f0; --gap: #74c796; --loss: #ff6b6b; --bad: #ff8f8f; --good: #74c796; } }
* { box-sizing: border-box; }
body { margin: 0 auto; padding: 1.5rem 1rem 3rem; max-width: 76rem; background: var(--paper); color: var(--ink);
  font: 16px/1.5 system-ui, -apple-system, 'Segoe UI', 'DejaVu Sans', sans-serif; }
h1 { font-size: 1.6rem; line-height: 1.2; margin: 0 0 .3rem; }
h2 { font-size: 1.15rem; margin: 2.2rem 0 .6rem; }
h3 { font-size: 1rem; margin: 0 0 .2rem; overflow-wrap: anywhere; }
p { margin: .3rem 0; }
a { color: inherit; }
code { font-family: ui-monospace, 'DejaVu Sans Mono', monospace; font-size: .92em; overflow-wrap: anywhere; }
.faint { color: var(--faint); font-size: .88rem; }
.bad { color: var(--bad); font-weight: 600; }
.good { color: var(--good); font-weight: 600; }
ul.verdicts { list-style: none; margin: 0; padding: 0; }
ul.verdicts > li { border-left: 4px solid var(--loss); background: var(--card); margin: .5rem 0; padding: .5rem .8rem; }
ul.verdicts ul { margin: .2rem 0 0; padding-left: 1.1rem; }
@media (min-width: 701px) { ul.verdicts > li { display: grid; grid-template-columns: 12.5rem 1fr; gap: 1rem; } ul.verdicts ul { margin: 0; } }
section.stream { border-top: 1px solid var(--line); padding: 1rem 0 .6rem; break-inside: avoid; }
section.stream ul { margin: .3rem 0; padding-left: 1.2rem; }
summary { color: var(--faint); font-size: .88rem; cursor: pointer; width: max-content; }
figure { margin: .6rem 0 0; }
figcaption { display: flex; justify-content: space-between; gap: 1rem; color: var(--faint); font-size: .82rem; }
figure .foot { border-top: 1px solid var(--line); padding-top: .1rem; }
svg { display: block; width: 100%; height: 7rem; background: var(--card); border-top: 1px solid var(--line); }
svg path { fill: none; vector-effect: non-scaling-stroke; stroke-linecap: round; }
svg .lead { stroke: var(--lead); stroke-width: 2px; }
svg .gap { stroke: var(--gap); stroke-width: 2px; }
svg .loss { stroke: var(--loss); stroke-width: 1.5px; }
svg .rule { stroke: var(--line); stroke-width: 1px; }
.key span { display: inline-block; width: .8rem; height: .8rem; margin: 0 .3rem 0 .9rem; vertical-align: -.05rem; border-radius: 2px; }
.key span:first-child { margin-left: 0; }
.scroll { overflow-x: auto; border: 1px solid var(--line); }
table { border-collapse: collapse; font-size: .82rem; font-variant-numeric: tabular-nums; }
th, td { padding: .25rem .6rem; text-align: right; white-space: nowrap; border-bottom: 1px solid var(--line); }
th { background: var(--card); color: var(--faint); font-weight: 600; position: sticky; top: 0; }
th:nth-child(-n+4), td:nth-child(-n+4), th:last-child, td:last-child { text-align: left; }
td:first-child { font-family: ui-monospace, 'DejaVu Sans Mono', monospace; }
dl { display: grid; grid-template-columns: max-content 1fr; gap: .1rem 1rem; font-size: .88rem; }
dt { color: var(--faint); } dd { margin: 0; }
@media (max-width: 700px), print {
  .scroll { border: 0; overflow: visible; }
  table, tbody, tr, td { display: block; }
  thead { display: none; }
  tr { display: grid; grid-template-columns: repeat(auto-fill, minmax(9.5rem, 1fr)); gap: 0 1rem; border: 1px solid var(--line);
    margin: .6rem 0; padding: .5rem .7rem; break-inside: avoid; }
  td { border: 0; padding: .1rem 0; text-align: left; white-space: normal; overflow-wrap: anywhere; }
  td::before { content: attr(data-name); display: block; color: var(--faint); font-size: .75rem; }
  td:first-child, td:last-child { grid-column: 1 / -1; }
  body { padding: 1rem .8rem 2rem; }
}
@media print { :root { --paper: #fff; --ink: #000; --faint: #444; --line: #bbb; --card: #f4f4f4; --lead: #1f5fa8; --gap: #2f7d4f;
  --loss: #c62f2f; --bad: #a32222; --good: #2f7d4f; } body { font-size: 10pt; max-width: none; padding: 0; } svg { height: 4rem; }
  @page { margin: 15mm; } h2, h3, .key { break-after: avoid; } ul.verdicts > li, figure { break-inside: avoid; }
  h2 { margin-top: 1.2rem; } section.stream { padding: .6rem 0 .3rem; } figure { margin-top: .3rem; }
  table { font-size: 7.5pt; } tr { grid-template-columns: repeat(6, 1fr); } td::before { font-size: 6.5pt; }
  .key span, ul.verdicts > li, svg { print-color-adjust: exact; -webkit-print-color-adjust: exact; } }
";
