//! The parts of the page that are always there.

macro_rules! markup {
    ($next:ident $(, $then:ident)*; $($text:literal)*) => {
        $next!($($then),*; $($text)* r##"
</head>
<body>
<a class="skip" href="#content">To the content</a>
<header>
  <div>
    <h1 id="name">Sesamejoist</h1>
    <span class="dim" id="about">the fleet's collector</span>
  </div>
  <form id="find" role="search">
    <label for="find_key">Find a key</label>
    <input id="find_key" type="search" autocomplete="off" autocapitalize="off" spellcheck="false"
      placeholder="as 10.0.0.66">
    <span class="pair">
      <label for="find_table">in</label>
      <select id="find_table" aria-label="in which table"></select>
      <button>Find</button>
    </span>
  </form>
</header>
<main id="content">
<section id="verdict" class="card" aria-label="What is wrong">
  <h2><span id="state" role="status">Asking the collector</span></h2>
  <ul id="faults"></ul>
</section>
<section id="open" class="card" tabindex="-1" aria-labelledby="open_title" hidden>
  <div class="top">
    <h2 id="open_title"></h2>
    <a id="close" href="#">Close</a>
  </div>
  <p id="open_fault" class="bad" role="alert"></p>
  <div id="open_body"></div>
</section>
<div class="flow">
  <section class="card" aria-labelledby="chart_title">
    <h2 id="chart_title">Updates a second, of all proxies</h2>
    <div id="chart" class="chart"></div>
  </section>
  <section class="card" aria-label="Figures">
    <dl class="facts">
      <dt>proxies connected</dt><dd id="connected">-</dd>
      <dt>updates a second</dt><dd id="rate">-</dd>
      <dt>updates</dt><dd id="updates">-</dd>
      <dt>keys</dt><dd id="keys">-</dd>
      <dt>connections refused</dt><dd id="refused">-</dd>
      <dt>memory</dt><dd id="memory">-</dd>
    </dl>
  </section>
</div>
<section class="card" aria-labelledby="proxies_title">
  <h2 id="proxies_title">Proxies <small id="proxies_about"></small></h2>
  <div id="proxies" class="scroll"></div>
  <div class="row" id="proxies_more" hidden>
    <button type="button" id="all" aria-expanded="false">Show all</button>
    <label for="proxies_named" class="dim">whose name has</label>
    <input id="proxies_named" type="search" autocomplete="off" spellcheck="false"
      aria-label="proxies whose name has">
  </div>
</section>
<section aria-labelledby="filters_title">
  <h2 id="filters_title">Filters <small id="filters_about"></small></h2>
  <div id="filters" class="cards"></div>
  <p id="filters_none" class="dim"></p>
</section>
<section aria-labelledby="ranks_title">
  <h2 id="ranks_title">Ranked lists <small id="ranks_about"></small></h2>
  <div id="ranks" class="cards"></div>
  <p id="ranks_none" class="dim"></p>
</section>
<section class="card" aria-labelledby="tables_title">
  <h2 id="tables_title">Tables <small id="tables_about"></small></h2>
  <div id="tables" class="scroll"></div>
</section>
</main>
<footer>
  As JSON: <a href="/api/v1/overview">overview</a>, <a href="/api/v1/peers">proxies</a>.
  For Prometheus: <a href="/metrics">metrics</a>. <a href="/healthz">Health</a>.
  Keys: / finds a key, Esc closes what is open.
</footer>
"##)
    };
}

pub(crate) use markup;
