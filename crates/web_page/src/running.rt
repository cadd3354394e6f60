//! What the script does over and over, and what it does when it is told to.

macro_rules! running {
    ($next:ident $(, $then:ident)*; $($text:literal)*) => {
        $next!($($then),*; $($text)* r##"
const PANELS = [["key", KeyPanel], ["proxy", ProxyPanel], ["filter", FilterPanel],
  ["rank", RankPanel], ["table", TablePanel]];
let opened = null, openedFrom = null;

function explain(fault) {
  if (fault.status === 404) return NOTHING;
  if (fault.status === 400) return "The collector refuses this: " + fault.message;
  if (fault.status === 503) return "The collector is too busy to answer.";
  return "The collector doesn't answer.";
}

// Opens what the address names behind its #; nothing where it names nothing.
function openPlace(isAsked) {
  const text = location.hash.slice(1);
  if (text && !text.includes("=")) return;
  const words = Object.fromEntries(new URLSearchParams(text));
  const [, Panel] = PANELS.find(([word]) => word in words) || [];
  say(at("open_fault"), "");
  at("open_body").replaceChildren();
  at("open").hidden = !Panel;
  opened = Panel ? new Panel(at("open_body"), words) : null;
  if (!Panel) return;
  say(at("open_title"), opened.title);
  showOpened();
  if (isAsked) {
    at("open").scrollIntoView({ block: "start" });
    at("open").focus({ preventScroll: true });
  }
}

function close() {
  if (!opened) return;
  history.pushState(null, "", location.pathname);
  openPlace(false);
  if (openedFrom && openedFrom.isConnected) openedFrom.focus();
}

function showOpened() {
  if (!opened || !seen.told) return;
  opened.show(seen.told);
  askOpened();
}

async function askOpened() {
  const mine = opened;
  if (!mine.ask || mine.isAsking || Date.now() - (mine.asked || 0) < mine.every) return;
  mine.isAsking = true;
  mine.asked = Date.now();
  let wrong = "";
  try {
    await mine.ask(seen.told);
  } catch (fault) {
    wrong = explain(fault);
  }
  mine.isAsking = false;
  if (mine !== opened) return;
  say(at("open_fault"), wrong);
  mine.show(seen.told);
}

function showTableNames(told) {
  const names = ["", ...told.tables.map((one) => one.table)];
  keep(at("find_table"), names, (name) => name, () => document.createElement("option"),
    (node, name) => {
      if (node.value !== name || !node.textContent) node.value = name;
      say(node, name || "every table");
    });
}

function show() {
  const told = seen.told;
  showVerdict();
  showFacts(told);
  showProxies(told);
  showFilters(told);
  showRanks(told);
  showTables(told);
  showTableNames(told);
  showOpened();
}

// A collector that is busy for a moment is asked again, and nothing is said of it.
async function askAll() {
  let told;
  try {
    told = await fetched("/api/v1/overview");
  } catch (fault) {
    const isBusy = fault.status === 503;
    if (!isBusy || Date.now() - seen.at > SILENT) seen.fault = explain(fault);
    showVerdict();
    return;
  }
  remember(told);
  seen.fault = "";
  await askFigures().catch(() => {});
  show();
  askKeys(told);
}

let timer = 0, isPolling = false;
async function poll() {
  if (isPolling) return;
  clearTimeout(timer);
  isPolling = true;
  try {
    await askAll();
  } finally {
    isPolling = false;
    timer = setTimeout(poll, document.hidden ? HIDDEN : EVERY);
  }
}

at("find").addEventListener("submit", (event) => {
  event.preventDefault();
  const key = escapedKey(at("find_key").value), table = at("find_table").value;
  if (!key) return;
  const to = place(table ? { key, table } : { key });
  if (location.hash === to) openPlace(true); else location.hash = to;
});
at("all").addEventListener("click", () => {
  at("all").isOn = !at("all").isOn;
  set(at("all"), "aria-expanded", String(at("all").isOn));
  if (seen.told) showProxies(seen.told);
});
at("proxies_named").addEventListener("input", () => { if (seen.told) showProxies(seen.told); });
at("close").addEventListener("click", (event) => { event.preventDefault(); close(); });
document.addEventListener("click", (event) => {
  const link = event.target.closest("a");
  if (link && !at("open").contains(link)) openedFrom = link;
});
document.addEventListener("keydown", (event) => {
  if (event.key === "Escape") close();
  if (event.key !== "/" || event.target.closest("input, select")) return;
  event.preventDefault();
  at("find_key").focus();
});
document.addEventListener("visibilitychange", () => { if (!document.hidden) poll(); });
addEventListener("hashchange", () => openPlace(true));
openPlace(false);
poll();
</script>
</body>
</html>
"##)
    };
}

pub(crate) use running;
