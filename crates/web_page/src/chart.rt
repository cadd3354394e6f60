//! A chart with a scale.

macro_rules! chart {
    ($next:ident $(, $then:ident)*; $($text:literal)*) => {
        $next!($($then),*; $($text)* r##"
const HIGH = 150, LEFT = 52, TOP = 10, LOW = 22;

// The least of 1, 2 and 5 with zeros behind it that isn't below a value.
function scaleOf(value) {
  let unit = 1;
  while (unit * 10 <= value) unit *= 10;
  return [1, 2, 5, 10].map((step) => step * unit).find((top) => top >= value);
}

function draw(tag, parent, words) {
  const node = document.createElementNS(SVG, tag);
  for (const [name, value] of Object.entries(words)) node.setAttribute(name, value);
  parent.append(node);
  return node;
}

// Values a second over the last ten minutes: points of a time and a value.
class Chart {
  constructor(parent, label) {
    this.label = label;
    this.points = [];
    this.svg = draw("svg", parent, { role: "img" });
    this.words = make("p", parent, "dim");
    this.svg.addEventListener("pointermove", (event) => this.pick(event.offsetX));
    this.svg.addEventListener("pointerleave", () => this.pick(null));
    this.picked = null;
    new ResizeObserver(() => this.draw()).observe(this.svg);
  }

  show(points, until) {
    this.points = points;
    this.until = until;
    this.draw();
  }

  pick(x) {
    this.picked = x;
    this.draw();
  }

  across(time) {
    return LEFT + (this.wide - LEFT - 4) * (1 - (this.until - time) / KEPT);
  }

  up(value) {
    return HIGH - LOW - (HIGH - LOW - TOP) * value / this.top;
  }

  draw() {
    this.wide = this.svg.clientWidth;
    if (!this.wide || !this.until) return;
    const values = this.points.map((point) => point.value);
    this.top = scaleOf(Math.max(1, ...values));
    this.svg.replaceChildren();
    set(this.svg, "viewBox", "0 0 " + this.wide + " " + HIGH);
    this.drawScale();
    this.drawCurve();
    this.tell(values);
  }

  drawScale() {
    for (const value of this.top > 1 ? [0, this.top / 2, this.top] : [0, 1]) {
      const y = this.up(value);
      draw("line", this.svg, { class: "grid", x1: LEFT, x2: this.wide, y1: y, y2: y });
      draw("text", this.svg, { x: LEFT - 6, y: y + 4, "text-anchor": "end" })
        .textContent = count(value);
    }
    for (const [ago, text, anchor] of [[KEPT, "10 min ago", "start"],
      [KEPT / 2, "5 min ago", "middle"], [0, "now", "end"]]) {
      const x = this.across(this.until - ago);
      draw("text", this.svg, { x, y: HIGH - 4, "text-anchor": anchor }).textContent = text;
    }
  }

  drawCurve() {
    const spots = this.points.map((point) => this.across(point.at).toFixed(1) + " "
      + this.up(point.value).toFixed(1));
    if (!spots.length) return;
    const first = this.across(this.points[0].at), last = this.across(this.points.at(-1).at);
    const curve = "M" + spots.join("L");
    draw("path", this.svg, { class: "area", d: curve + "L" + last + " " + this.up(0) + "L" + first
      + " " + this.up(0) + "Z" });
    draw("path", this.svg, { class: "curve", d: curve });
  }

  // What the chart says in words: of the moment that is pointed at, or in all.
  tell(values) {
    if (!values.length) {
      say(this.words, "Nothing yet.");
      set(this.svg, "aria-label", this.label + ": nothing yet");
      return;
    }
    const mean = values.reduce((sum, value) => sum + value, 0) / values.length;
    const all = "now " + count(Math.round(values.at(-1))) + ", at most "
      + count(Math.round(Math.max(...values))) + ", on average " + count(Math.round(mean))
      + " a second in " + span(this.until - this.points[0].at + 1000);
    set(this.svg, "aria-label", this.label + ": " + all);
    say(this.words, this.pointed() || all);
  }

  pointed() {
    if (this.picked === null) return "";
    const far = (point) => Math.abs(this.across(point.at) - this.picked);
    const point = this.points.reduce((a, b) => far(b) < far(a) ? b : a);
    const x = this.across(point.at);
    draw("line", this.svg, { class: "pick", x1: x, x2: x, y1: TOP, y2: HIGH - LOW });
    return count(Math.round(point.value)) + " a second at " + clock(point.at);
  }
}
"##)
    };
}

pub(crate) use chart;
