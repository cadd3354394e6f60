//! The script's own words: texts, links, lists and tables of the document. All that is told goes
//! into the document as text.

macro_rules! basics {
    ($next:ident $(, $then:ident)*; $($text:literal)*) => {
        $next!($($then),*; $($text)* r##"
<script>
"use strict";
const at = (id) => document.getElementById(id);
const digits = new Intl.NumberFormat("en");
const SVG = "http://www.w3.org/2000/svg";

function count(value) {
  return Number.isSafeInteger(value) ? digits.format(value) : "about " + value.toPrecision(4);
}

function many(value, one, more) {
  return count(value) + " " + (value === 1 ? one : more);
}

function percent(part, whole) {
  return whole > 0 ? Math.floor(100 * part / whole) + " %" : "";
}

function span(ms) {
  const s = Math.floor(ms / 1000);
  if (s < 120) return s + " s";
  if (s < 7200) return Math.floor(s / 60) + " min";
  if (s < 172800) return Math.floor(s / 3600) + " h " + Math.floor(s % 3600 / 60) + " min";
  return Math.floor(s / 86400) + " d " + Math.floor(s % 86400 / 3600) + " h";
}

function clock(ms) {
  return new Date(ms).toISOString().slice(11, 19) + " UTC";
}

// Sets a text only where it differs, so that nothing is drawn or read out anew.
function say(node, text) {
  text = String(text);
  if (node.textContent !== text) node.textContent = text;
}

function mark(node, name) {
  if (node.className !== name) node.className = name;
}

function set(node, name, value) {
  if (node.getAttribute(name) !== value) node.setAttribute(name, value);
}

function make(tag, parent, name, text) {
  const node = document.createElement(tag);
  if (name) node.className = name;
  if (text !== undefined) say(node, text);
  parent.append(node);
  return node;
}

// The place of what is open, as these words say it.
function place(words) {
  return "#" + new URLSearchParams(words);
}

// Texts in a row; one that has `to` is a link. They are made anew only where their links differ.
function sayParts(node, parts) {
  const links = JSON.stringify(parts.map((part) => part.to || ""));
  if (node.links !== links) {
    node.replaceChildren();
    for (const part of parts) {
      const to = part.to;
      if (to) make("a", node).setAttribute("href", to); else make("span", node);
    }
    node.links = links;
  }
  parts.forEach((part, i) => say(node.children[i], part.text === undefined ? part : part.text));
}

// Links to things of a kind by their names, with commas between, and how many more there are.
function named(kind, names, most) {
  const parts = [];
  for (const name of names.slice(0, most)) {
    if (parts.length) parts.push(", ");
    parts.push({ text: name, to: place({ [kind]: name }) });
  }
  if (names.length > most) parts.push(" and " + many(names.length - most, "other", "others"));
  return parts;
}

// Keeps one child for each item, by its key, in the items' order.
function keep(parent, items, keyOf, build, show) {
  const old = parent.kept || new Map(), kept = new Map();
  let before = null;
  items.forEach((item, i) => {
    const key = keyOf(item, i);
    const node = old.get(key) || build(item);
    kept.set(key, node);
    show(node, item, i);
    const next = before ? before.nextSibling : parent.firstChild;
    if (next !== node) parent.insertBefore(node, next);
    before = node;
  });
  for (const [key, node] of old) if (!kept.has(key)) node.remove();
  parent.kept = kept;
}

// A table whose rows are kept by their keys. A column has a label and `text` of an item, and may
// have `to` for a link, `mark` for a class and `order` to be sorted by; `number` stands right.
class Grid {
  constructor(parent, label, keyOf, columns) {
    this.keyOf = keyOf;
    this.columns = columns;
    this.items = [];
    this.sorted = null;
    const table = make("table", parent, "wide");
    set(table, "role", "table");
    set(table, "aria-label", label);
    const head = make("tr", make("thead", table));
    set(head, "role", "row");
    for (const column of columns) column.head = this.head(head, column);
    this.body = make("tbody", table);
    set(this.body, "role", "rowgroup");
  }

  head(row, column) {
    const cell = make("th", row, column.number ? "number" : "");
    cell.scope = "col";
    set(cell, "role", "columnheader");
    if (!column.order) {
      say(cell, column.label);
      return cell;
    }
    const button = make("button", cell, "", column.label);
    button.type = "button";
    button.addEventListener("click", () => this.sort(column));
    return cell;
  }

  // By this column, or in the order in which it was told where it was by this one before.
  sort(column) {
    this.sorted = this.sorted === column ? null : column;
    for (const other of this.columns) {
      if (other === this.sorted) set(other.head, "aria-sort", "descending");
      else other.head.removeAttribute("aria-sort");
    }
    this.show(this.items);
  }

  show(items) {
    this.items = items;
    const by = this.sorted && this.sorted.order;
    const shown = by ? [...items].sort((a, b) => by(b) - by(a)) : items;
    keep(this.body, shown, this.keyOf, () => this.build(), (row, item) => this.row(row, item));
  }

  build() {
    const row = document.createElement("tr");
    set(row, "role", "row");
    for (const column of this.columns) {
      const cell = make("td", row);
      set(cell, "role", "cell");
      set(cell, "data-label", column.label);
      cell.said = column.to ? make("a", cell) : cell;
    }
    return row;
  }

  row(row, item) {
    this.columns.forEach((column, i) => {
      const cell = row.children[i];
      const how = column.mark ? column.mark(item) : "";
      mark(cell, (column.number ? "number " : "") + (column.kind || "") + " " + how);
      say(cell.said, column.text(item));
      if (column.to) set(cell.said, "href", column.to(item));
      if (column.kind === "key") set(cell.said, "title", column.text(item));
    });
  }
}
"##)
    };
}

pub(crate) use basics;
