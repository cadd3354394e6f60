//! What is wrong, in words: on top of the page, in its title and its icon.

macro_rules! verdict {
    ($next:ident $(, $then:ident)*; $($text:literal)*) => {
        $next!($($then),*; $($text)* r##"
// A fault is `bad` where something fails now, `watch` where somebody should look, and `note` where
// it is good to know.
function fault(id, level, ...parts) {
  return { id, level, parts: parts.flat() };
}

// Away for how long, those that went last first.
function awayFaults(told) {
  const away = told.peers.filter((peer) => peer.state === "away");
  const never = told.peers.filter((peer) => peer.state === "never").map((peer) => peer.name);
  const faults = [];
  if (told.peers.length && told.connected === 0) {
    faults.push(fault("none", "bad", "No proxy is connected."));
  }
  if (away.length) {
    away.sort((a, b) => a.since_ms - b.since_ms);
    const parts = away.slice(0, 8).flatMap((peer, i) => [i ? ", " : "",
      { text: peer.name, to: place({ proxy: peer.name }) }, " for " + span(peer.since_ms)]);
    const more = away.length > 8 ? " and " + many(away.length - 8, "other", "others") : "";
    const all = many(told.peers.length, "proxy", "proxies");
    faults.push(fault("away", "bad", away.length + " of " + all
      + (away.length === 1 ? " is away: " : " are away: "), parts, more + "."));
  }
  if (never.length) {
    faults.push(fault("never", "watch", many(never.length, "proxy", "proxies")
      + " never came since the collector began " + span(told.uptime_ms) + " ago: ",
      named("proxy", never, 4), "."));
  }
  return faults;
}

function fullFaults(told) {
  const faults = [];
  for (const { table } of told.tables) {
    const size = held.sizes.get(table);
    const full = holders(table).filter((one) => size && one.rows >= size);
    const near = holders(table).filter((one) => size && one.rows >= size * .9 && one.rows < size);
    const link = { text: table, to: place({ table }) };
    if (full.length) {
      faults.push(fault("full " + table, "bad", "Table ", link, " is full, new keys are dropped: "
        + count(size) + " rows of ", named("proxy", full.map((one) => one.peer), 6), "."));
    } else if (near.length) {
      faults.push(fault("near " + table, "watch", "Table ", link, " is nearly full: of "
        + count(size) + " rows a proxy may hold, " + count(near[0].rows) + " are held by ",
        named("proxy", near.map((one) => one.peer), 6), "."));
    }
  }
  return faults;
}

function droppedFaults(told) {
  const total = told.peers.reduce((sum, peer) => sum + peer.dropped, 0);
  if (!total) return [];
  const lately = told.peers.map((peer) => ({ name: peer.name, count: droppedLately(peer) }))
    .filter((one) => one.count > 0).sort((a, b) => b.count - a.count);
  if (lately.length) {
    const sum = lately.reduce((all, one) => all + one.count, 0);
    const names = named("proxy", lately.map((one) => one.name), 6);
    return [fault("dropped", "bad", many(sum, "update of a new key was", "updates of new keys were")
      + " dropped within the last minute, of ", names, ".")];
  }
  const watched = Date.now() - seen.began;
  return [fault("dropped", watched < MINUTE ? "watch" : "note",
    many(total, "update of a new key was", "updates of new keys were")
    + " dropped since the collector began; none in the " + span(watched)
    + " that this page has watched.")];
}

// A line for each of a few filters with keys, or one for all of them.
function filterFaults(told) {
  const full = told.filters.filter((filter) => filter.keys > 0).sort((a, b) => b.keys - a.keys);
  const link = ({ filter }) => ({ text: filter, to: place({ filter }) });
  if (full.length > 4) {
    const parts = full.slice(0, 6).flatMap((one, i) =>
      [i ? ", " : "", link(one), " " + many(one.keys, "key", "keys")]);
    const more = full.length > 6 ? " and " + many(full.length - 6, "other", "others") : "";
    return [fault("filters", "watch", full.length + " filters hold keys: ", parts, more + ".")];
  }
  return full.map((one) => {
    const { table, keys, first: [key] } = one;
    const what = keys === 1 && key ? { text: key, to: place({ table, key }) }
      : many(keys, "key", "keys");
    return fault("filter " + one.filter, "watch", "Filter ", link(one), " holds ", what,
      " of table " + table + ": " + conditionOf(one)
      + (one.pushed ? "; proxies are told." : "; no proxy is told."));
  });
}

// A line for each configured column that proxies don't send, with the proxies of whom that is so.
function notSentFaults(told) {
  const columns = new Map();
  for (const peer of told.peers) {
    for (const { table, reason } of peer.not_sent) {
      const id = table + " " + reason;
      if (!columns.has(id)) columns.set(id, { id, table, reason, names: [] });
      columns.get(id).names.push(peer.name);
    }
  }
  return [...columns.values()].slice(0, 6).map(({ id, table, reason, names }) =>
    fault("not sent " + id, "watch", "Table ", { text: table, to: place({ table }) }, " of ",
      named("proxy", names, 4), ": " + reason + ", so it counts 0 here."));
}

// Tables that are passed over, rows that were learned, lost lines, refused connections.
function otherFaults(told) {
  const faults = [];
  const learned = told.peers.filter((peer) => peer.learned > 0).map((peer) => peer.name);
  if (learned.length > 1) {
    faults.push(fault("learned", "note", "Proxies have taught rows that they learned: ",
      named("proxy", learned, 4), ". If none of them was reloaded, they name one another beside "
      + "the collector, and sums are multiplied."));
  }
  if (told.lost_lines) {
    faults.push(fault("lost", "watch", many(told.lost_lines, "line of the log was",
      "lines of the log were") + " lost since the collector began."));
  }
  const passed = told.peers.filter((peer) => peer.unknown_tables > 0).map((peer) => peer.name);
  if (passed.length) {
    faults.push(fault("passed", "note", "Tables are passed over of ", named("proxy", passed, 6),
      "; show peers <proxy> says which, and why."));
  }
  if (seen.refused === undefined || told.refused < seen.refused.count) {
    seen.refused = { count: told.refused, at: 0, sum: 0 };
  }
  if (told.refused > seen.refused.count) {
    seen.refused = { count: told.refused, at: Date.now(), sum: told.refused - seen.refused.count };
  }
  if (Date.now() - seen.refused.at < MINUTE) {
    const sum = many(seen.refused.sum, "connection was", "connections were");
    faults.push(fault("refused", "watch", sum + " refused "
      + span(Date.now() - seen.refused.at) + " ago; the log says why."));
  }
  return faults;
}

function faultsOf(told) {
  const faults = [];
  const late = told.behind_ms;
  if (late > 5000) {
    faults.push(fault("clock", "bad", "The collector's clock is " + span(late)
      + " behind: rows end late, and filters and lists are as they were then."));
  }
  if (!told.peers.length) faults.push(fault("empty", "watch", "No proxy is configured."));
  return faults.concat(awayFaults(told), fullFaults(told), droppedFaults(told),
    filterFaults(told), notSentFaults(told), otherFaults(told));
}

// Where the collector didn't answer, what is shown is old.
function silentFaults() {
  if (!seen.fault) return [];
  const old = seen.told ? " What is shown is from " + clock(seen.at) + ", "
    + span(Date.now() - seen.at) + " ago." : "";
  return [fault("silent", "bad", seen.fault + old)];
}

const SIGNS = {
  good: "<circle cx='8' cy='8' r='7' fill='%2312683b'/>",
  watch: "<path d='M8 1L15 15H1Z' fill='%23c77700'/>",
  bad: "<path d='M1 1H15V15H1Z' fill='%23d92d20'/>",
};

function headline(level, faults) {
  if (seen.fault) return seen.fault.replace(/\.$/, "");
  if (!seen.told) return "Asking the collector";
  const wrong = faults.filter((one) => one.level === "bad").length;
  const watch = faults.filter((one) => one.level === "watch").length;
  if (level === "good") return "Nothing is wrong";
  const parts = [];
  if (wrong) parts.push(many(wrong, "thing is wrong", "things are wrong"));
  if (watch) parts.push(many(watch, "thing to look at", "things to look at"));
  return parts.join(", ");
}

function showVerdict() {
  const faults = silentFaults().concat(seen.told ? faultsOf(seen.told) : []);
  const rank = { bad: 0, watch: 1, note: 2 };
  faults.sort((a, b) => rank[a.level] - rank[b.level]);
  const worst = faults.length ? faults[0].level : "good";
  const level = worst === "note" ? "good" : worst;
  const words = headline(level, faults);
  say(at("state"), words);
  mark(at("state"), level);
  mark(at("verdict"), "card " + level);
  keep(at("faults"), faults, (one) => one.id, () => document.createElement("li"), (node, one) => {
    mark(node, one.level);
    if (!node.told) node.told = make("span", node, "told");
    sayParts(node.told, one.parts);
  });
  const title = (seen.told ? seen.told.name + ": " : "") + words;
  if (document.title !== title) document.title = title;
  set(at("icon"), "href", "data:image/svg+xml,<svg xmlns='http://www.w3.org/2000/svg' "
    + "viewBox='0 0 16 16'>" + SIGNS[level] + "</svg>");
}
"##)
    };
}

pub(crate) use verdict;
