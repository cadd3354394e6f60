//! What can be opened: a proxy, a filter, a ranked list, a table's rows, a key.

macro_rules! panels {
    ($next:ident $(, $then:ident)*; $($text:literal)*) => {
        $next!($($then),*; $($text)* r##"
// Each panel has a title, `show` for what was told, and `ask` for more of it every so many ms.
const NOTHING = "There is nothing of this name.";
// How many rows are shown at once; how many keys of a filter, and how many are asked for in a turn.
const ROWS = 50, SHOWN = 20, TURN = 3;

function jsonLink(box, path) {
  const node = make("p", box, "dim");
  make("a", node, "", "as JSON").setAttribute("href", path);
}

class ProxyPanel {
  constructor(box, { proxy }) {
    this.name = proxy;
    this.title = "Proxy " + proxy;
    this.about = make("p", box);
    this.chart = new Chart(make("div", box, "chart"), "Updates a second of " + proxy);
    this.grid = new Grid(make("div", box, "scroll"), "Tables of " + proxy, (one) => one.table, [
      { label: "Table", kind: "name", text: (one) => one.table,
        to: (one) => place({ table: one.table }) },
      { label: "Rows", number: true, text: (one) => count(one.rows) },
      { label: "May hold", number: true, text: (one) => one.size ? count(one.size) : "" },
      { label: "Full", number: true, text: (one) => percent(one.rows, one.size),
        mark: (one) => one.size && one.rows >= one.size ? "bad" : "" },
      { label: "Dropped", number: true, text: (one) => count(one.dropped),
        mark: (one) => one.dropped ? "watch" : "" },
    ]);
  }

  show(told) {
    const peer = told.peers.find((one) => one.name === this.name);
    if (!peer) {
      say(this.about, NOTHING);
      return;
    }
    const from = peer.from ? ", from " + peer.from : "";
    const parts = [stateOf(peer) + from, many(peer.updates, "update", "updates")
      + ", the last one " + lastOf(peer)];
    if (peer.learned) parts.push(count(peer.learned) + " of them it learned from other proxies, or "
      + "from itself before a reload");
    if (peer.unknown_tables) parts.push(many(peer.unknown_tables, "table", "tables")
      + " passed over: show peers " + peer.name + " says why");
    for (const { table, reason } of peer.not_sent) parts.push("of table " + table + " " + reason);
    if (told.filters.some((one) => one.pushed)) parts.push("it is told "
      + many(peer.told, "key", "keys") + " of pushed filters");
    say(this.about, parts.join("; ") + ".");
    this.chart.show(ratesOf(this.name), seen.at);
    this.grid.show(told.tables.map(({ table }) => {
      const { rows, dropped } = holders(table).find((one) => one.peer === this.name)
        || { rows: 0, dropped: 0 };
      return { table, rows, dropped, size: held.sizes.get(table) || 0 };
    }));
  }
}

// The value of a column: of the key's row, or as a ranked list told it.
function valueOf({ values, known = {} }, name) {
  const value = values ? values[name] : known[name];
  return value === undefined ? "" : count(value);
}

// A grid of summed rows, made once their columns are known.
class RowGrid {
  constructor(box, table, more) {
    Object.assign(this, { box, table, more, names: "" });
  }

  show(rows) {
    const values = (rows.find((row) => row.values) || { values: {} }).values;
    const names = Object.keys(values);
    if (!this.grid || (names.length && names.join() !== this.names)) {
      this.box.replaceChildren();
      this.names = names.join();
      this.grid = this.made(names);
    }
    this.grid.show(rows);
  }

  made(names) {
    const table = this.table;
    const told = (row, text) => row.values ? text : "";
    return new Grid(this.box, "Rows of " + table, (row) => row.key, [
      { label: "Key", kind: "key", text: (row) => row.key === "" ? "(empty)" : row.key,
        to: ({ key }) => place({ table, key }) },
      ...names.map((name) => ({ label: name, number: true, text: (row) => valueOf(row, name),
        order: (row) => row.values ? row.values[name] : -1 })),
      { label: "Proxies", number: true, text: (row) => told(row, row.peers),
        order: (row) => row.peers || 0 },
      { label: "Ends in", number: true, kind: "short", text: (row) => told(row,
        row.expires_in_ms === null ? "never" : span(row.expires_in_ms || 0)) },
      ...this.more,
    ]);
  }
}

class TablePanel {
  constructor(box, { table, where = "", after }) {
    Object.assign(this, { table, where, after, every: 2 * EVERY, rows: [], more: false });
    this.title = "Table " + table;
    this.about = make("p", box);
    this.buildForm(box);
    this.grid = new RowGrid(make("div", box, "scroll"), table, []);
    this.next = make("p", box);
    const path = listPath("tables", table, this.query());
    jsonLink(box, path);
  }

  buildForm(box) {
    const form = make("form", box);
    const label = make("label", form, "", "rows where");
    label.htmlFor = "open_where";
    const input = make("input", form);
    input.id = "open_where";
    input.value = this.where;
    input.placeholder = "data.http_req_rate gt 100";
    input.autocomplete = "off";
    make("button", form, "", "Show");
    form.addEventListener("submit", (event) => {
      event.preventDefault();
      const where = input.value.trim();
      location.hash = place(where ? { table: this.table, where } : { table: this.table });
    });
  }

  query() {
    const words = { limit: ROWS };
    if (this.where) words.where = this.where;
    if (this.after !== undefined) words.after = this.after;
    return words;
  }

  async ask() {
    const list = await look(listPath("tables", this.table, this.query()));
    Object.assign(this, { rows: list.entries, more: list.more, keys: list.keys });
  }

  show(told) {
    const facts = told.tables.find((one) => one.table === this.table);
    if (!facts) {
      say(this.about, NOTHING);
      return;
    }
    const { keys, size } = tableFacts(facts);
    say(this.about, many(keys, "key", "keys") + "; each proxy may hold " + count(size)
      + " rows. Shown are " + count(this.rows.length) + ", by key; a column's name sorts these.");
    this.grid.show(this.rows);
    const words = this.where ? { table: this.table, where: this.where } : { table: this.table };
    const first = { text: "from the first", to: place(words) };
    const parts = this.after === undefined ? [] : [first, " "];
    if (this.more && this.rows.length) {
      const after = this.rows.at(-1).key;
      parts.push({ text: "the next " + ROWS, to: place({ ...words, after }) });
    }
    sayParts(this.next, parts);
  }
}

class RankPanel {
  constructor(box, { rank }) {
    Object.assign(this, { rank, every: 2 * EVERY, entries: [], table: "" });
    this.title = "Ranked list " + rank;
    this.about = make("p", box);
    this.path = listPath("ranks", rank, { limit: 1000 });
    this.grid = new Grid(make("div", box, "scroll"), this.title, (one) => one.key, [
      { label: "Place", number: true, text: (one) => one.place },
      { label: "Key", kind: "key", text: (one) => one.key === "" ? "(empty)" : one.key,
        to: ({ key }) => place({ table: this.table, key }) },
      { label: "Value", number: true, text: (one) => count(one.value) },
    ]);
    jsonLink(box, this.path);
  }

  async ask() {
    const list = await look(this.path);
    this.table = list.table;
    this.column = list.column;
    this.entries = list.entries.map((entry, i) => ({ ...entry, place: i + 1 }));
  }

  show(told) {
    if (!told.ranks.some((one) => one.rank === this.rank)) {
      say(this.about, NOTHING);
      return;
    }
    const first = this.entries.filter((entry) => entry.value > 0);
    if (this.column) say(this.about, many(first.length, "key", "keys") + " of table " + this.table
      + " with the greatest " + this.column + " of the fleet, those of 0 left out.");
    this.grid.show(first);
  }
}

// A filter's keys, the worst first. Of a large table their rows are asked for one at a time, a few
// in a turn.
class FilterPanel {
  constructor(box, { filter }) {
    Object.assign(this, { filter, every: EVERY, keys: [], rows: new Map(), ranked: 0 });
    this.worth = worthBy("", []);
    this.title = "Filter " + filter;
    this.about = make("p", box);
    this.box = make("div", box, "scroll");
    this.more = make("p", box, "dim");
    jsonLink(box, listPath("filters", filter, { limit: 10000 }));
  }

  async ask(told) {
    const found = told.filters.find((one) => one.filter === this.filter);
    if (!found) return;
    this.table = found.table;
    const { keys, rows } = await keysOf(told, found, 2 * EVERY);
    this.keys = keys;
    this.isWalked = Boolean(rows);
    if (rows || found.keys === found.first.length) this.worth = worthOf(told, found, keys);
    else if (Date.now() - this.ranked > FIGURES) await this.askRank(told, found);
    if (rows) {
      this.rows = rows;
      return;
    }
    const ago = (key) => this.rows.has(key) ? this.rows.get(key).at : 0;
    for (const key of this.first().sort((a, b) => ago(a) - ago(b)).slice(0, TURN)) {
      if (opened !== this) return;
      const list = await look(listPath("tables", this.table, { where: "key " + key }));
      this.rows.set(key, { key, ...list.entries[0], at: Date.now() });
    }
  }

  // The worst of many keys stand in a ranked list of the table, perhaps behind its first ones.
  async askRank(told, found) {
    const { column } = worthOf(told, found, this.keys);
    const rank = told.ranks.find((one) => one.table === this.table && one.column === column);
    if (rank) {
      const list = await look(listPath("ranks", rank.rank, { limit: 1000 }));
      this.worth = worthBy(column, list.entries);
    }
    this.ranked = Date.now();
  }

  // The first keys by what is known of them: their rows, which are newer, or the ranked list.
  first() {
    const { column, of } = this.worth, known = new Map(of);
    for (const [key, { values }] of this.rows) {
      const name = column || Object.keys(values || {}).find((one) => one.endsWith("_rate"));
      if (name && values) known.set(key, values[name]);
    }
    return worstFirst(this.keys, { of: known }).slice(0, SHOWN);
  }

  show(told) {
    const found = told.filters.find((one) => one.filter === this.filter);
    if (!found) {
      say(this.about, NOTHING);
      return;
    }
    say(this.about, "Keys of table " + found.table + " whose " + conditionOf(found) + "; "
      + pushOf(found) + ". " + many(found.keys, "key", "keys") + "; " + changeOf(found)
      + ". " + (this.isWalked ? "Those of the greatest " + measureOf(found) + " stand first."
        : "Those of the greatest value that is known stand first; their rows are asked for a few "
        + "at a time."));
    if (!this.grid && this.table) {
      this.grid = new RowGrid(this.box, this.table, [{ label: "Asked", number: true, kind: "short",
        text: (row) => row.at ? span(Date.now() - row.at) + " ago" : "" }]);
    }
    const { column, of } = this.worth, keys = this.first();
    if (this.grid) this.grid.show(keys.map((key) =>
      this.rows.get(key) || { key, known: { [column]: of.get(key) } }));
    const left = found.keys - keys.length;
    say(this.more, left > 0 && keys.length ? "and " + many(left, "key", "keys") + " more" : "");
  }
}
"##)
    };
}

pub(crate) use panels;
