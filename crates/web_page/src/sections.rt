//! The page's sections: proxies, filters, ranked lists and tables.

macro_rules! sections {
    ($next:ident $(, $then:ident)*; $($text:literal)*) => {
        $next!($($then),*; $($text)* r##"
// How many proxies, keys of a filter (of one among many) and places of a list are shown before one
// asks for all.
const FEW = 12, KEYS = 8, FEW_KEYS = 3, PLACES = 10;
const STATES = { away: 0, never: 1, connected: 2 };

function stateOf(peer) {
  if (peer.state === "never") return "never came";
  return peer.state + " " + span(peer.since_ms);
}

function lastOf(peer) {
  return peer.last_update_ms === null ? "never" : span(peer.last_update_ms) + " ago";
}

// Of a proxy that never came nothing else is told.
function ofCome(text) {
  return (peer) => peer.state === "never" ? "" : text(peer);
}

function speedOf(peer) {
  const rate = rateOf(peer.name);
  return rate === null ? "" : count(Math.round(rate));
}

function proxyGrid(parent) {
  return new Grid(parent, "Proxies", (peer) => peer.name, [
    { label: "Proxy", kind: "name", text: (peer) => peer.name,
      to: (peer) => place({ proxy: peer.name }) },
    { label: "State", kind: "short", text: stateOf, mark: (peer) =>
      ({ away: "bad", never: "watch", connected: "good" })[peer.state] },
    { label: "Updates a second", number: true, order: (peer) => rateOf(peer.name) || 0,
      text: ofCome(speedOf) },
    { label: "Updates", number: true, text: ofCome((peer) => count(peer.updates)),
      order: (peer) => peer.updates },
    { label: "Last update", number: true, kind: "short", text: ofCome(lastOf),
      order: (peer) => peer.last_update_ms || 0 },
    { label: "Rows", number: true, text: ofCome((peer) => count(peer.rows)),
      order: (peer) => peer.rows },
    { label: "Dropped", number: true, text: ofCome((peer) => count(peer.dropped)),
      order: (peer) => peer.dropped,
      mark: (peer) => droppedLately(peer) ? "bad" : peer.dropped ? "watch" : "" },
    { label: "From", kind: "short", text: (peer) => peer.from || "" },
  ]);
}

// Those that are away first, what went last before all; then those that drop updates.
function inOrder(peers) {
  const worth = (peer) => droppedLately(peer) > 0 ? 0 : 1;
  return [...peers].sort((a, b) => STATES[a.state] - STATES[b.state]
    || (a.state === "away" ? a.since_ms - b.since_ms : worth(a) - worth(b)));
}

function showProxies(told) {
  const grid = at("proxies").grid || (at("proxies").grid = proxyGrid(at("proxies")));
  const part = at("proxies_named").value.trim().toLowerCase();
  const peers = inOrder(told.peers).filter((peer) => peer.name.toLowerCase().includes(part));
  const broken = peers.filter((peer) => peer.state === "away").length;
  const most = at("all").isOn || part ? peers.length : Math.max(FEW, broken);
  grid.show(grid.sorted ? peers : peers.slice(0, most));
  say(at("proxies_about"), told.peers.length
    ? told.connected + " of " + told.peers.length + " are connected" : "none is configured");
  at("proxies_more").hidden = told.peers.length <= FEW;
  say(at("all"), at("all").isOn ? "Show fewer" : "Show all " + told.peers.length);
}

// The values of keys of a filter: of its own rows, where they were told, and of a ranked list of
// its table: one by the same column, or the one that tells most of these keys.
function worthOf(told, filter, keys) {
  const wanted = new Set(keys), column = measureOf(filter);
  const isOwn = (rank) => rank.column === column ? 1 : 0;
  const hits = (rank) => rank.first.filter((one) => one.value > 0 && wanted.has(one.key)).length;
  const ranks = told.ranks.filter((rank) => rank.table === filter.table);
  ranks.sort((a, b) => isOwn(b) - isOwn(a) || hits(b) - hits(a));
  const ranked = ranks.length ? worthBy(ranks[0].column, ranks[0].first) : worthBy(column, []);
  const { rows } = lists.get(filter.filter) || {};
  if (!rows) return ranked;
  const own = [...rows.values()].map(({ key, values }) => ({ key, value: values[column] }));
  const newer = ranked.column === column && ranks.length ? ranks[0].first : [];
  return worthBy(column, [...own, ...newer]);
}

function worthBy(column, entries) {
  const of = new Map();
  for (const { key, value } of entries) if (value > 0) of.set(key, value);
  return { column, of };
}

function worstFirst(keys, { of }) {
  const value = (key) => of.has(key) ? of.get(key) : -1;
  return [...keys].sort((a, b) => value(b) - value(a));
}

function card(name, kind) {
  const node = document.createElement("article");
  mark(node, "card");
  const head = make("h3", node);
  set(make("a", head, "", name), "href", place({ [kind]: name }));
  node.small = make("small", head);
  if (kind === "filter") node.rule = make("p", node);
  node.about = make("p", node);
  node.list = make("ol", node, "keys");
  node.more = make("p", node, "dim");
  return node;
}

function bar() {
  const node = document.createElement("li");
  node.label = make("a", node, "clamp");
  node.amount = make("span", node);
  return node;
}

// A key with a value, where it is known, and the part of the greatest that it is.
function showBar(node, { table, key, value }, top) {
  say(node.label, key === "" ? "(empty)" : key);
  set(node.label, "href", place({ table, key }));
  set(node.label, "title", key);
  say(node.amount, value === undefined ? "" : count(value));
  node.style.setProperty("--share", (value ? 100 * value / top : 0).toFixed(1) + "%");
}

function showBars(list, items) {
  const top = Math.max(1, ...items.map((item) => item.value || 0));
  keep(list, items, (item) => item.key, bar, (node, item) => showBar(node, item, top));
}

function changeOf(filter) {
  const ms = filter.next_change_ms;
  if (ms === null) return "only updates change it";
  return "the clock changes it " + (ms < 1000 ? "within a second" : "in " + span(ms));
}

const WORDS = { eq: "is", ne: "isn't", le: "is at most", ge: "is at least", lt: "is below",
  gt: "is above" };

// What a filter's condition says, and whether proxies are told its keys.
function conditionOf({ conditions }) {
  return conditions.map(({ column, operator, value }) =>
    column + " " + WORDS[operator] + " " + count(value)).join(" and ");
}

function pushOf({ pushed, hold_ms }) {
  if (!pushed) return "no proxy is told its keys";
  return "proxies are told its keys" + (hold_ms === null ? "" : ", for " + span(hold_ms)
    + " behind their leaving");
}

function showFilter(node, filter, told, most) {
  const { table, first } = filter;
  const list = lists.get(filter.filter);
  const all = first.length < filter.keys && list ? list.keys : first;
  const worth = worthOf(told, filter, all);
  const shown = worstFirst(all, worth).slice(0, most);
  const isKnown = shown.some((key) => worth.of.has(key));
  say(node.small, " of table " + table + (filter.pushed ? ", pushed" : ""));
  say(node.rule, "Keys whose " + conditionOf(filter));
  say(node.about, many(filter.keys, "key", "keys") + (isKnown ? " by " + worth.column : "")
    + "; " + changeOf(filter));
  showBars(node.list, shown.map((key) => ({ table, key, value: worth.of.get(key) })));
  const left = filter.keys - shown.length;
  sayParts(node.more, left > 0 ? ["and ", { text: many(left, "key", "keys") + " more",
    to: place({ filter: filter.filter }) }] : []);
}

function showFilters(told) {
  const full = told.filters.filter((filter) => filter.keys > 0);
  const empty = told.filters.filter((filter) => filter.keys === 0).map((filter) => filter.filter);
  full.sort((a, b) => b.keys - a.keys);
  const most = full.length > 9 ? FEW_KEYS : KEYS;
  say(at("filters_about"), told.filters.length
    ? full.length + " of " + told.filters.length + " hold keys" : "none is configured");
  keep(at("filters"), full, (filter) => filter.filter, (filter) => card(filter.filter, "filter"),
    (node, filter) => showFilter(node, filter, told, most));
  sayParts(at("filters_none"), empty.length ? ["No key in ", ...named("filter", empty, 32)] : []);
}

function showRank(node, rank) {
  say(node.small, " by " + rank.column + " of table " + rank.table);
  const first = rank.first.filter((entry) => entry.value > 0);
  showBars(node.list, first.slice(0, PLACES).map(({ key, value }) =>
    ({ table: rank.table, key, value })));
  sayParts(node.more, first.length > PLACES
    ? [{ text: "the whole list", to: place({ rank: rank.rank }) }] : []);
}

function showRanks(told) {
  const has = (rank) => rank.first.some((entry) => entry.value > 0);
  const empty = told.ranks.filter((rank) => !has(rank)).map((rank) => rank.rank);
  say(at("ranks_about"), told.ranks.length ? "" : "none is configured");
  keep(at("ranks"), told.ranks.filter(has), (rank) => rank.rank,
    (rank) => card(rank.rank, "rank"), showRank);
  sayParts(at("ranks_none"), empty.length
    ? ["No key above 0 in ", ...named("rank", empty, 16)] : []);
}

// A table with what the figures tell of it.
function tableFacts({ table, keys }) {
  const peers = holders(table), size = held.sizes.get(table) || 0;
  const sum = (of) => peers.reduce((all, peer) => all + peer[of], 0);
  return { table, keys, size, rows: sum("rows"), dropped: sum("dropped"), first: peers[0] };
}

function fullest({ first, size }) {
  return first && first.rows ? first.peer + ", " + percent(first.rows, size) : "";
}

function tableGrid(parent) {
  return new Grid(parent, "Tables", (one) => one.table, [
    { label: "Table", kind: "name", text: (one) => one.table,
      to: (one) => place({ table: one.table }) },
    { label: "Keys", number: true, text: (one) => count(one.keys), order: (one) => one.keys },
    { label: "Rows of all proxies", number: true, text: (one) => count(one.rows),
      order: (one) => one.rows },
    { label: "Rows each may hold", number: true, text: (one) => one.size ? count(one.size) : "" },
    { label: "Fullest proxy", text: fullest,
      mark: ({ first, size }) => !first || !size ? ""
        : first.rows >= size ? "bad" : first.rows >= size * .9 ? "watch" : "" },
    { label: "Dropped", number: true, text: (one) => count(one.dropped),
      order: (one) => one.dropped, mark: (one) => one.dropped ? "watch" : "" },
  ]);
}

function showTables(told) {
  const grid = at("tables").grid || (at("tables").grid = tableGrid(at("tables")));
  grid.show(told.tables.map(tableFacts));
  say(at("tables_about"), told.tables.length ? "" : "none is configured");
}

function showFacts(told) {
  const rates = told.updates_per_second;
  say(at("name"), told.name);
  say(at("about"), "Sesamejoist " + told.version + ", began " + span(told.uptime_ms) + " ago");
  say(at("connected"), told.connected + " / " + told.peers.length);
  say(at("rate"), count(rates.length ? rates.at(-1) : 0));
  say(at("updates"), count(told.updates));
  say(at("keys"), count(told.tables.reduce((sum, table) => sum + table.keys, 0)));
  say(at("refused"), count(told.refused));
  say(at("memory"), held.memory ? count(Math.round(held.memory / 1e6)) + " MB" : "-");
  const box = at("chart");
  if (!box.chart) box.chart = new Chart(box, "Updates a second of all proxies");
  box.chart.show(rates.map((value, i) =>
    ({ at: seen.at - (rates.length - 1 - i) * 1000, value })), seen.at);
}
"##)
    };
}

pub(crate) use sections;
