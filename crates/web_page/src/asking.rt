//! How the script asks the collector, and what it keeps of what it was told.

macro_rules! asking {
    ($next:ident $(, $then:ident)*; $($text:literal)*) => {
        $next!($($then),*; $($text)* r##"
// Times in ms: between two polls; of a page that isn't seen; until a silent collector counts as
// gone; between the looks for what is open; between two readings of the figures; between two lists
// of all keys of a filter.
const EVERY = 2000, HIDDEN = 30000, SILENT = 8000, PAUSE = 150, FIGURES = 10000, LISTS = 30000;
const KEPT = 600000, MINUTE = 60000;
// A table of so many keys is soon walked, so filters' keys are asked for with their rows.
const SOON = 20000;

// What was told last, and when; since when nothing is told; what is kept of each proxy.
const seen = { told: null, at: 0, began: 0, fault: "", past: new Map(), busy: 0 };
// Of the figures: a table's size, and by table and proxy what is held and was dropped.
const held = { at: 0, wait: FIGURES, sizes: new Map(), tables: new Map(), memory: null };

// An answer, as a text or as JSON. It fails with `status` where the collector refuses it.
async function fetched(path, isText) {
  const answer = await fetch(path, { cache: "no-store", signal: AbortSignal.timeout(SILENT) });
  if (answer.ok) return isText ? answer.text() : answer.json();
  const fault = new Error((await answer.text()).trim());
  fault.status = answer.status;
  throw fault;
}

const sleep = (ms) => new Promise((done) => setTimeout(done, ms));

// Looks are asked for one behind the other, and again where the collector is busy.
let queue = Promise.resolve();
function look(path) {
  const asked = queue.then(() => patient(path));
  queue = asked.catch(() => {}).then(() => sleep(PAUSE));
  return asked;
}

async function patient(path) {
  for (let left = 4; ; left -= 1) {
    try {
      return await fetched(path);
    } catch (fault) {
      if (fault.status !== 503 || left === 0) throw fault;
      await sleep(1000);
    }
  }
}

function listPath(kind, name, words) {
  const query = new URLSearchParams(words);
  return "/api/v1/" + kind + "/" + encodeURIComponent(name) + "?" + query;
}

// A started collector counts anew, so what was kept is of no use.
function remember(told) {
  const now = Date.now();
  if (seen.told && (told.uptime_ms < seen.told.uptime_ms || told.name !== seen.told.name)) {
    seen.past.clear();
    lists.clear();
    held.at = 0;
    seen.began = now;
  }
  if (!seen.began) seen.began = now;
  seen.told = told;
  seen.at = now;
  for (const peer of told.peers) {
    const past = seen.past.get(peer.name) || [];
    const { updates, dropped } = peer;
    past.push({ at: now, up: told.uptime_ms, updates, dropped });
    while (past[0].at < now - KEPT) past.shift();
    seen.past.set(peer.name, past);
  }
}

// How many updates of a proxy were dropped within the last minute that this page saw.
function droppedLately(peer) {
  const past = seen.past.get(peer.name) || [];
  const first = past.find((one) => one.at >= seen.at - MINUTE);
  return first ? peer.dropped - first.dropped : 0;
}

// Updates a second of a proxy between the polls, each with its time.
function ratesOf(name) {
  const past = seen.past.get(name) || [];
  return past.slice(1).map((one, i) => ({
    at: one.at,
    value: (one.updates - past[i].updates) * 1000 / Math.max(1, one.up - past[i].up),
  }));
}

function rateOf(name) {
  const rates = ratesOf(name).slice(-3);
  return rates.length ? rates.reduce((sum, rate) => sum + rate.value, 0) / rates.length : null;
}

// A label's value, without what escapes it.
function unescaped(text) {
  return text.replace(/\\(.)/g, (_, sign) => sign === "n" ? "\n" : sign);
}

function readFigures(text) {
  held.sizes.clear();
  held.tables.clear();
  const line = /^sesamejoist_(table_size|peer_rows|peer_dropped_updates_total)\{(.*)\} (\d+)$/gm;
  for (const [, name, labels, value] of text.matchAll(line)) {
    const of = {};
    for (const [, label, told] of labels.matchAll(/(\w+)="((?:[^"\\]|\\.)*)"/g)) {
      of[label] = unescaped(told);
    }
    if (name === "table_size") {
      held.sizes.set(of.table, Number(value));
      continue;
    }
    if (!held.tables.has(of.table)) held.tables.set(of.table, new Map());
    const peers = held.tables.get(of.table);
    if (!peers.has(of.peer)) peers.set(of.peer, { peer: of.peer, rows: 0, dropped: 0 });
    peers.get(of.peer)[name === "peer_rows" ? "rows" : "dropped"] = Number(value);
  }
  const memory = /^process_resident_memory_bytes (\d+)$/m.exec(text);
  held.memory = memory && Number(memory[1]);
}

// The figures share the overview's look. Of many proxies and tables they are read less often.
async function askFigures() {
  if (Date.now() - held.at < held.wait) return;
  const text = await fetched("/metrics", true);
  held.at = Date.now();
  held.wait = Math.max(FIGURES, text.length / 20);
  readFigures(text);
}

// Which value of a filter's keys says how bad they are: of its first column with a lower bound.
function measureOf({ conditions }) {
  const lower = conditions.find(({ operator }) => operator === "gt" || operator === "ge");
  return (lower || conditions[0]).column;
}

// The conditions as `show table` reads them; nothing where a number of them can't be written.
function whereOf({ conditions }) {
  if (!conditions.every(({ value }) => Number.isSafeInteger(value))) return "";
  return conditions.map(({ column, operator, value }) =>
    "data." + column + " " + operator + " " + value).join(" ");
}

function isWalked(told, { table, conditions }) {
  const facts = told.tables.find((one) => one.table === table);
  return facts && facts.keys <= SOON && whereOf({ conditions }) !== "";
}

// A filter's keys, and whether there are more: a collector tells 10,000 at most, the first by key.
// Of a table that is soon walked their rows come with them. What was asked for is kept so long.
const lists = new Map();
async function keysOf(told, found, wait) {
  const { filter, table, keys, first } = found, isWhole = first.length === keys;
  const withRows = isWalked(told, found);
  if (isWhole && !withRows) return { keys: first, more: false };
  const old = lists.get(filter);
  if (old && Date.now() - old.at < wait) return old;
  const path = withRows ? listPath("tables", table, { where: whereOf(found), limit: 1000 })
    : listPath("filters", filter, { limit: 10000 });
  const { entries, more } = await look(path), at = Date.now();
  const rows = withRows && new Map(entries.map((row) => [row.key, { ...row, at }]));
  lists.set(filter, { at, rows, more, keys: withRows ? [...rows.keys()] : entries });
  return lists.get(filter);
}

// What else is known of filters' keys is asked for now and then: of one filter a turn, the one that
// waited longest. It is their rows, or else all keys, where a ranked list can tell the worst.
let isListing = false;
async function askKeys(told) {
  const at = ({ filter }) => lists.has(filter) ? lists.get(filter).at : 0;
  const isRanked = ({ table }) => told.ranks.some((rank) => rank.table === table);
  const wanted = told.filters.filter((one) => one.keys > 0
    && (isWalked(told, one) || (one.keys > one.first.length && isRanked(one))));
  if (isListing || document.hidden || !wanted.length) return;
  isListing = true;
  const one = wanted.reduce((a, b) => at(b) < at(a) ? b : a);
  await keysOf(told, one, isWalked(told, one) ? FIGURES : LISTS).catch(() => {});
  isListing = false;
}

// What the proxies hold of a table, those with most rows first.
function holders(table) {
  const peers = [...(held.tables.get(table) || new Map()).values()];
  return peers.sort((a, b) => b.rows - a.rows);
}
"##)
    };
}

pub(crate) use asking;
