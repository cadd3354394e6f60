//! How the page looks, in the light and in the dark. Text has a contrast of 4.5 at least.

macro_rules! style {
    ($next:ident $(, $then:ident)*; $($text:literal)*) => {
        $next!($($then),*; $($text)* r##"
<style>
:root {
  --ground: #f3f5f8; --card: #fff; --ink: #1b1f24; --dim: #535d6a; --line: #d9dee5;
  --bar: #d3e4f8; --good: #12683b; --watch: #7d4a00; --bad: #b42318; --link: #0b57a4;
  --plot: #2f6fbd; --fill: #2f6fbd26;
}
@media (prefers-color-scheme: dark) {
  :root {
    --ground: #14171b; --card: #1d2127; --ink: #e7eaee; --dim: #a7b0bc; --line: #343b44;
    --bar: #27476b; --good: #56cf95; --watch: #f2ae62; --bad: #ff9088; --link: #8cc2ff;
    --plot: #7db4f5; --fill: #7db4f526;
  }
}
* { box-sizing: border-box; }
body {
  margin: 0; background: var(--ground); color: var(--ink); overflow-wrap: anywhere;
  font: 15px/1.45 system-ui, -apple-system, "Segoe UI", Roboto, sans-serif;
}
a { color: var(--link); }
:focus-visible { outline: 3px solid var(--plot); outline-offset: 2px; border-radius: 3px; }
[hidden] { display: none !important; }
.skip { position: absolute; left: -100vw; }
.skip:focus { position: static; }
header, main, footer { max-width: 1280px; margin: 0 auto; padding: 12px 16px; }
header { display: flex; flex-wrap: wrap; gap: 6px 20px; align-items: center; }
header > div { flex: 1 1 16em; min-width: 0; }
main { display: grid; gap: 14px; padding-top: 0; grid-template-columns: minmax(0, 1fr); }
h1 { font-size: 1.4rem; margin: 0; }
h2 { font-size: 1.05rem; margin: 0 0 8px; }
h3 { font-size: 1rem; margin: 0 0 4px; }
p { margin: 0 0 8px; }
h2 small, h3 small, .dim { color: var(--dim); font-weight: normal; font-size: .9rem; }
input, select, button { font: inherit; color: inherit; }
input, select {
  background: var(--card); border: 1px solid var(--dim); border-radius: 6px; padding: 4px 8px;
  min-width: 0; max-width: 100%;
}
::placeholder { color: var(--dim); opacity: 1; }
button {
  background: var(--card); border: 1px solid var(--dim); border-radius: 6px; padding: 4px 12px;
  cursor: pointer;
}
form { display: flex; flex-wrap: wrap; gap: 6px; align-items: center; margin: 0; }
form label { color: var(--dim); }
form input { flex: 1 1 13em; }
.pair { display: flex; gap: 6px; align-items: center; }
.list { display: grid; gap: 12px; grid-template-columns: minmax(0, 1fr); margin: 0 0 8px; }
.card {
  background: var(--card); border: 1px solid var(--line); border-radius: 10px;
  padding: 12px 14px; min-width: 0;
}
.cards {
  display: grid; gap: 12px; align-items: start;
  grid-template-columns: repeat(auto-fill, minmax(min(330px, 100%), 1fr));
}
#verdict { border-left: 8px solid var(--dim); }
#verdict.good { border-left-color: var(--good); }
#verdict.watch { border-left-color: var(--watch); }
#verdict.bad { border-left-color: var(--bad); }
#verdict h2 { font-size: 1.25rem; }
.good { color: var(--good); }
.watch { color: var(--watch); }
.bad { color: var(--bad); }
#verdict { color: inherit; }
#faults { margin: 0; padding: 0; list-style: none; display: grid; gap: 5px; }
#faults li { padding-left: 1.4em; text-indent: -1.4em; }
#faults li::before { content: "\25CB"; display: inline-block; width: 1.4em; text-indent: 0; }
#faults li.bad::before { content: "\25A0"; }
#faults li.watch::before { content: "\25B2"; }
#faults li.note { color: var(--dim); }
#faults:empty { display: none; }
#open { border-color: var(--plot); border-width: 2px; }
#open:focus { outline: none; }
.top { display: flex; gap: 12px; justify-content: space-between; align-items: start; }
.flow { display: grid; gap: 14px; grid-template-columns: minmax(0, 1fr); }
@media (min-width: 900px) { .flow { grid-template-columns: minmax(0, 3fr) minmax(0, 1fr); } }
.facts { display: grid; gap: 6px 12px; margin: 0; grid-template-columns: 1fr auto; }
.list .facts { max-width: 22em; margin: 0 0 8px; }
.facts dt { color: var(--dim); }
.facts dd { margin: 0; font-weight: 600; text-align: right; font-variant-numeric: tabular-nums; }
.chart { position: relative; }
svg { display: block; width: 100%; height: 150px; touch-action: pan-y; }
svg text { fill: var(--dim); font-size: 12px; }
svg .grid { stroke: var(--line); }
svg .curve { fill: none; stroke: var(--plot); stroke-width: 1.5; }
svg .area { fill: var(--fill); }
svg .pick { stroke: var(--ink); stroke-dasharray: 3 3; }
.scroll { overflow-x: auto; }
table { border-collapse: collapse; width: 100%; font-variant-numeric: tabular-nums; }
th, td { text-align: left; padding: 4px 16px 4px 0; vertical-align: top; }
th { color: var(--dim); font-weight: normal; border-bottom: 1px solid var(--line); }
th button { border: 0; padding: 0; background: none; color: inherit; text-align: inherit; }
th button { text-decoration: underline dotted; }
th[aria-sort] button::after { content: " \25BE"; }
th.number, td.number { text-align: right; }
td { border-bottom: 1px solid var(--line); }
td.name, td.key { font-weight: 600; }
@media (min-width: 701px) { td.name, td.key { min-width: 14em; } }
th, td.number, td.short { white-space: nowrap; overflow-wrap: normal; }
td.key a { max-width: 44em; }
td.bad, td.watch { font-weight: 600; }
.keys { margin: 6px 0; padding: 0; list-style: none; display: grid; gap: 3px; }
.keys li {
  display: flex; gap: 10px; justify-content: space-between; padding: 1px 8px; border-radius: 5px;
  background: linear-gradient(to right, var(--bar) var(--share, 0%), transparent 0);
}
.keys a { color: inherit; }
.clamp, td.key a {
  display: -webkit-box; -webkit-box-orient: vertical; -webkit-line-clamp: 2; overflow: hidden;
  width: fit-content;
}
.keys span { flex: none; font-variant-numeric: tabular-nums; }
.row { display: flex; flex-wrap: wrap; gap: 6px 16px; align-items: center; margin: 8px 0 0; }
p:empty, .keys:empty { display: none; }
footer { color: var(--dim); font-size: .9rem; }
@media (max-width: 700px) {
  .wide thead { position: absolute; left: -300vw; }
  .wide, .wide tbody { display: block; }
  .wide tr {
    display: flex; flex-wrap: wrap; gap: 0 14px; padding: 6px 0;
    border-bottom: 1px solid var(--line);
  }
  .wide td { border: 0; padding: 0; }
  .wide td.number { text-align: left; }
  .wide td.name, .wide td.key { flex: 1 0 60%; }
  .wide td[data-label]:not(:empty, .name, .key)::before {
    content: attr(data-label) " "; color: var(--dim); font-weight: normal;
  }
  .wide td:empty { display: none; }
}
@media (forced-colors: active) {
  .keys li { background: none; border-bottom: 1px solid; }
}
</style>
"##)
    };
}

pub(crate) use style;
