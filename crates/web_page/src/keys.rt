//! A key of one table, or of all.

macro_rules! keys {
    ($next:ident $(, $then:ident)*; $($text:literal)*) => {
        $next!($($then),*; $($text)* r##"
// A key as the collector writes it: bytes that don't print and a lone % are escaped.
function escapedKey(text) {
  const bytes = new TextEncoder().encode(text.trim());
  return Array.from(bytes, (byte, i) => {
    const hex = String.fromCharCode(...bytes.slice(i + 1, i + 3));
    const isPlain = byte > 32 && byte < 127 && (byte !== 37 || /^[0-9a-f]{2}$/i.test(hex));
    return isPlain ? String.fromCharCode(byte) : "%" + byte.toString(16).padStart(2, "0");
  }).join("");
}

function keyPath(table, key) {
  return "/api/v1/tables/" + encodeURIComponent(table) + "/keys/" + encodeURIComponent(key);
}

// What a filter does with a key, and when the clock alone changes that.
function verdictParts({ filter, holds, next_change }, moment) {
  const wait = next_change === null ? "" : span(next_change - moment);
  const link = { text: filter, to: place({ filter }) };
  if (holds) return ["Held by filter ", link, wait ? ", for " + wait + " by the clock. " : ". "];
  return wait ? ["Filter ", link, " takes it in " + wait + " by the clock. "] : [];
}

// The rows that the proxies have of a key.
function peerGrid(box, table, names) {
  return new Grid(box, "Proxies that have this key of " + table, (one) => one.peer, [
    { label: "Proxy", kind: "name", text: (one) => one.peer,
      to: (one) => place({ proxy: one.peer }) },
    ...names.map((name) => ({ label: name, number: true, text: (one) => count(one.values[name]),
      order: (one) => one.values[name] })),
    { label: "Told", number: true, kind: "short", text: (one) => span(one.age_ms) + " ago",
      order: (one) => one.age_ms },
    { label: "Ends in", number: true, kind: "short", text: (one) =>
      one.expires_in_ms === null ? "never" : span(one.expires_in_ms) },
  ]);
}

class KeyPanel {
  constructor(box, { key, table }) {
    Object.assign(this, { key, only: table, every: EVERY, found: new Map(), whole: 0 });
    this.title = "Key " + key + (table === undefined ? "" : " of table " + table);
    this.about = make("p", box);
    this.list = make("div", box, "list");
    if (table !== undefined) {
      make("a", make("p", box), "", "in every table").setAttribute("href", place({ key }));
    }
  }

  // All tables now and then, those that have the key in each turn.
  async ask(told) {
    const names = told.tables.map((one) => one.table);
    const wanted = this.only === undefined ? names : names.filter((one) => one === this.only);
    const isWhole = Date.now() - this.whole > FIGURES;
    for (const table of wanted) {
      if (opened !== this) return;
      if (isWhole || this.found.has(table)) await this.askTable(table);
    }
    if (isWhole) this.whole = Date.now();
  }

  async askTable(table) {
    let list;
    try {
      list = await look(listPath("tables", table, { where: "key " + this.key }));
    } catch (fault) {
      if (fault.status === 400) return;
      throw fault;
    }
    const row = list.entries[0];
    if (!row) {
      this.found.delete(table);
      return;
    }
    this.found.set(table, { table, row, story: await look(keyPath(table, row.key)) });
  }

  show(told) {
    const found = [...this.found.values()];
    if (!this.whole) say(this.about, "Asking.");
    else if (found.length) say(this.about, "The fleet's sums:");
    else say(this.about, this.only === undefined ? "No table has a row of this key."
      : "The table has no row of this key.");
    keep(this.list, found, (one) => one.table, (one) => card(one.table, "table"),
      (node, one) => this.showRow(node, one, told));
  }

  showRow(node, { table, row, story }, told) {
    say(node.small, " " + many(row.peers, "proxy has", "proxies have") + " a row; "
      + (row.expires_in_ms === null ? "no end" : "ends in " + span(row.expires_in_ms)));
    if (!node.facts) {
      node.facts = make("dl", node, "facts");
      node.insertBefore(node.facts, node.list);
      node.grid = peerGrid(make("div", node, "scroll"), table, Object.keys(row.values));
    }
    const pairs = Object.entries(row.values).flatMap(([name, value]) =>
      [["dt", name, name], ["dd", name, count(value)]]);
    keep(node.facts, pairs, (one) => one[0] + one[1], (one) => document.createElement(one[0]),
      (line, one) => say(line, one[2]));
    node.grid.show(story.peers);
    const parts = story.filters.flatMap((one) => verdictParts(one, story.moment));
    for (const rank of told.ranks.filter((one) => one.table === table)) {
      const at = rank.first.findIndex((entry) => entry.key === row.key);
      if (at >= 0) parts.push("Place " + (at + 1) + " of ",
        { text: rank.rank, to: place({ rank: rank.rank }) }, ". ");
    }
    sayParts(node.more, parts.length ? parts : ["No filter holds it."]);
  }
}
"##)
    };
}

pub(crate) use keys;
