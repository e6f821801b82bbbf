//! The page of `puffin-look view`: HTML, style and JavaScript.

/// What comes before the data.
pub(crate) const HEAD: &str = r##"<!doctype html>
<html lang="en">
<meta charset="utf-8">
<meta name="viewport" content="width=device-width, initial-scale=1">
<meta name="color-scheme" content="light dark">
<meta http-equiv="Content-Security-Policy" content="default-src 'none'; style-src 'unsafe-inline'; script-src 'unsafe-inline'">
<title>Frames</title>
<style>
:root {
  color-scheme: light dark;
  --back: #fbfbfa; --front: #1d2126; --faint: #667079; --line: #d9dcdf; --panel: #ffffff;
  --accent: #c2410c; --bar: #8fa3b5; --fill: 62% 80%; --stroke: #1d2126; --label: #16191d;
}
@media (prefers-color-scheme: dark) {
  :root {
    --back: #14171a; --front: #e4e7ea; --faint: #97a1ab; --line: #31373d; --panel: #1b1f23;
    --accent: #fb923c; --bar: #5b6b7a; --fill: 38% 33%; --stroke: #f4f6f8; --label: #f1f3f5;
  }
}
* { box-sizing: border-box; } body { margin: 0; padding: 0 16px 56px; background: var(--back); color: var(--front); font: 14px/1.45 system-ui, sans-serif; }
h1 { font-size: 18px; margin: 14px 0 2px; } h2 { font-size: 15px; margin: 22px 0 6px; }
h3 { font: 12px ui-monospace, monospace; color: var(--faint); margin: 10px 0 2px; overflow-wrap: anywhere; }
p { margin: 2px 0 8px; } .faint { color: var(--faint); }
.row { display: flex; flex-wrap: wrap; gap: 6px 8px; align-items: center; margin: 6px 0; }
.row output { flex: 1 1 220px; font-variant-numeric: tabular-nums; }
button, select { font: inherit; color: inherit; background: var(--panel); border: 1px solid var(--line); border-radius: 5px; padding: 3px 10px; min-height: 30px; }
button:hover { border-color: var(--faint); }
:focus-visible { outline: 2px solid var(--accent); outline-offset: 1px; }
svg { display: block; width: 100%; background: var(--panel); border-radius: 3px; }
#bars, #flame { border: 1px solid var(--line); border-radius: 6px; background: var(--panel); touch-action: pan-y; user-select: none; }
#bars rect { fill: var(--bar); } #bars rect.chosen { fill: var(--accent); }
#bars line { stroke: var(--faint); stroke-dasharray: 2 3; }
svg text { fill: var(--faint); font: 11px ui-monospace, monospace; pointer-events: none; white-space: pre; unicode-bidi: isolate; }
#flame { padding: 0 8px 8px; cursor: grab; }
.thread { content-visibility: auto; contain-intrinsic-size: auto 60px; }
.thread text { fill: var(--label); }
.thread rect { fill: hsl(var(--hue) var(--fill)); stroke: var(--panel); stroke-width: .5; }
.thread rect.dim { opacity: .25; } .thread rect.thin { stroke: none; }
.thread rect:hover, .thread rect.selected { stroke: var(--stroke); stroke-width: 2; }
#ruler line { stroke: var(--line); }
#info { position: fixed; inset: auto 0 0; min-height: 44px; padding: 8px 16px; background: var(--panel); border-top: 1px solid var(--line); font-variant-numeric: tabular-nums; overflow-wrap: anywhere; }
#info b { margin-right: 10px; unicode-bidi: isolate; }
#info span { margin-right: 14px; white-space: pre-wrap; unicode-bidi: isolate; }
.wide { overflow-x: auto; border: 1px solid var(--line); border-radius: 6px; background: var(--panel); }
table { border-collapse: collapse; width: 100%; font-variant-numeric: tabular-nums; }
th, td { padding: 3px 10px; text-align: right; white-space: nowrap; border-bottom: 1px solid var(--line); }
th:first-child, td:first-child { text-align: left; }
td:first-child { white-space: pre-wrap; overflow-wrap: anywhere; min-width: 130px; unicode-bidi: isolate; }
th button { border: 0; padding: 2px 0; font-weight: 600; background: none; }
th[aria-sort] button { color: var(--accent); }
tbody tr { cursor: pointer; } tbody tr:hover, tr.lit { background: color-mix(in srgb, var(--accent) 14%, transparent); }
@media (max-width: 600px) { body { padding: 0 8px 76px; } .row output { order: -1; flex-basis: 100%; } }
</style>
<body>
<h1>Frames</h1>
<p id="summary" class="faint"></p>
<main hidden>
<div id="bars" tabindex="0" role="slider" aria-label="Frame"><svg height="120"></svg></div>
<div class="row">
  <button id="previous" aria-label="Previous frame">‹</button>
  <button id="next" aria-label="Next frame">›</button>
  <button id="slowest">Slowest</button>
  <output id="chosen"></output>
  <button id="closer" aria-label="Zoom in">+</button>
  <button id="farther" aria-label="Zoom out">−</button>
  <button id="whole">Whole frame</button>
</div>
<div id="flame" tabindex="0" role="group" aria-label="Scopes of the frame, by thread"><svg id="ruler" height="20"></svg><div id="threads"></div></div>
<p class="faint">Arrow keys move from scope to scope, Enter zooms to one, + and − zoom, Shift with an arrow key moves the view, Escape shows the whole frame. Drag to move, turn the wheel with Ctrl to zoom, double-click a scope to zoom to it.</p>
<h2>Scopes by name</h2>
<div class="row"><select id="extent" aria-label="Frames in the table"><option value="all">All frames of this page</option><option value="one">The chosen frame</option></select><span id="rows" class="faint"></span></div>
<div class="wide"><table><thead><tr></tr></thead><tbody></tbody></table></div>
</main>
<div id="info" role="status"></div>
<noscript>This page needs JavaScript.</noscript>
"##;

/// What follows the data.
pub(crate) const END: &str = r##"<script>
"use strict";
const byId = (id) => document.getElementById(id);
const SVG = "http://www.w3.org/2000/svg", ROW = 20, LETTER = 6.7, LIMIT = 200;
const svg = (name, attributes, text) => {
  const made = document.createElementNS(SVG, name);
  for (const key in attributes) made.setAttribute(key, attributes[key]);
  if (text !== undefined) made.textContent = text;
  return made;
};
const widthOf = (element) => element.getBoundingClientRect().width;
const html = (name, text) => Object.assign(document.createElement(name), { textContent: text });
const limited = (value, least, most) => Math.max(least, Math.min(most, value));
const grouped = (number) => number.toLocaleString("en");
const time = (ns) => {
  const size = Math.abs(ns);
  if (size < 1e3) return `${ns} ns`;
  const [unit, name] = size < 1e6 ? [1e3, "µs"] : size < 1e9 ? [1e6, "ms"] : [1e9, "s"];
  return `${grouped(Math.trunc(ns * 100 / unit) / 100)} ${name}`;
};
const percent = (part, whole) => whole > 0 ? `${(part / whole * 100).toFixed(1)} %` : "–";

// ---- the data, as docs/TOOLS.md describes it

const elements = (kind) => [...document.querySelectorAll(`script.${kind}`)];
const details = new Map(elements("details").map((it) => JSON.parse(it.textContent)).map(([id, ...rest]) => [id, rest]));
const nameOf = (id) => details.has(id) ? details.get(id)[0] : `#${id}`;
const placeOf = (id) => { const [, file, line] = details.get(id) ?? []; return file ? line ? `${file}:${line}` : file : ""; };

// A frame with its threads' scopes, each with its parent's place, and the time of the scopes directly within it.
function frameIn(element) {
  const [index, start, stop, ...streams] = JSON.parse(element.textContent);
  const threads = streams.map(([begin, name, ...rows]) => {
    const scopes = [], open = [];
    rows.forEach(([depth, id, start, duration, text], place) => {
      open.length = depth;
      const parent = depth ? open[depth - 1] : -1;
      open[depth] = place;
      if (depth) scopes[parent].nested += duration;
      scopes.push({ depth, id, start, duration, text, parent, nested: 0 });
    });
    return { name: `${begin}:${name}`, scopes };
  });
  return { element, index, start: BigInt(start), duration: Number(BigInt(stop) - BigInt(start)), threads };
}

function addTimes(rows, frame) {
  for (const { scopes } of frame.threads) for (const { id, duration, nested } of scopes) {
    const name = nameOf(id), row = rows.get(name) ?? { name, times: [], nested: 0 };
    row.times.push(duration);
    row.nested += nested;
    rows.set(name, row);
  }
}

const allTimes = new Map();
const frames = elements("frame").map((it) => {
  const frame = frameIn(it);
  addTimes(allTimes, frame);
  return { ...frame, threads: null };
});
const slowest = frames.reduce((best, it, at) => best < 0 || it.duration > frames[best].duration ? at : best, -1);
const wholeTime = frames.reduce((sum, it) => sum + it.duration, 0);

// ---- the bars

let chosen = -1, firstBar = 0, frame = null;

function drawBars() {
  const root = byId("bars").firstElementChild, width = widthOf(root), height = 120;
  const step = limited(width / frames.length, 4, 28), count = Math.max(1, Math.floor(width / step));
  firstBar = limited(limited(firstBar, chosen - count + 1, chosen), 0, Math.max(0, frames.length - count));
  const shown = frames.slice(firstBar, firstBar + count), most = Math.max(1, ...shown.map((it) => it.duration));
  root.replaceChildren(...shown.flatMap((it, place) => {
    const at = firstBar + place, high = Math.max(1, it.duration / most * (height - 18));
    const bar = svg("rect", { x: place * step, y: height - high, width: Math.max(1, step - 1), height: high, "data-frame": at });
    if (at === chosen) bar.setAttribute("class", "chosen");
    const skips = at > 0 && it.index !== frames[at - 1].index + 1;
    return skips ? [svg("line", { x1: place * step - .5, x2: place * step - .5, y1: 18, y2: height }), bar] : [bar];
  }), svg("text", { x: 4, y: 12 }, `to ${time(most)}`));
}

function barAt(event) {
  const bars = [...byId("bars").querySelectorAll("rect")], x = event.clientX - byId("bars").firstElementChild.getBoundingClientRect().left;
  const bar = bars.findLast((it) => it.x.baseVal.value <= x) ?? bars[0];
  return Number(bar.dataset.frame);
}

function choose(at) {
  at = limited(at, 0, frames.length - 1);
  if (at === chosen) return;
  chosen = at;
  frame = frameIn(frames[at].element);
  const text = `Frame ${grouped(frame.index)} · ${time(frame.duration)} · begins after ${time(Number(frame.start - frames[0].start))}`;
  byId("chosen").value = text;
  for (const [key, value] of Object.entries({ valuemin: 1, valuemax: frames.length, valuenow: at + 1, valuetext: text })) byId("bars").setAttribute(`aria-${key}`, value);
  history.replaceState(null, "", `#${frame.index}`);
  selected = null;
  makeThreads();
  showWhole();
  drawBars();
  if (byId("extent").value === "one") drawTable();
  tell();
}

const steps = { ArrowLeft: -1, ArrowDown: -1, ArrowRight: 1, ArrowUp: 1, PageUp: -20, PageDown: 20, Home: -Infinity, End: Infinity };
byId("bars").addEventListener("keydown", (event) => {
  if (!(event.key in steps) || event.ctrlKey || event.metaKey || event.altKey) return;
  event.preventDefault();
  choose(chosen + steps[event.key]);
});
byId("bars").addEventListener("pointerdown", (event) => { choose(barAt(event)); byId("bars").setPointerCapture(event.pointerId); });
byId("bars").addEventListener("pointermove", (event) => {
  if (event.buttons) choose(barAt(event));
  const { index, duration } = frames[barAt(event)];
  byId("info").replaceChildren(html("b", `Frame ${grouped(index)}`), html("span", time(duration)));
});
byId("bars").addEventListener("pointerleave", () => tell());
byId("previous").onclick = () => choose(chosen - 1);
byId("next").onclick = () => choose(chosen + 1);
byId("slowest").onclick = () => choose(slowest);

// ---- the flame charts: `view` is what they show of the frame, in nanoseconds behind its start

let view = { from: 0, to: 1 }, extent = view, selected = null, lit = null, isDue = false;

function makeThreads() {
  byId("threads").replaceChildren(...frame.threads.map(({ name, scopes }, at) => {
    const section = html("section", "");
    section.className = "thread";
    const high = scopes.reduce((most, it) => Math.max(most, it.depth + 1), 0) * ROW;
    section.append(html("h3", name), svg("svg", { height: Math.max(4, high), "data-thread": at }));
    return section;
  }));
  let from = 0, to = frame.duration;
  for (const { scopes } of frame.threads) for (const it of scopes) {
    from = Math.min(from, it.start);
    to = Math.max(to, it.start + it.duration);
  }
  extent = { from, to: Math.max(to, from + 1) };
}

// Neighbours that are too narrow to be seen are drawn as one.
function drawThread(root, at, width) {
  const scale = width / (view.to - view.from), ends = [], made = [];
  frame.threads[at].scopes.forEach((it, place) => {
    const left = (it.start - view.from) * scale, right = left + it.duration * scale;
    if (right < 0 || left > width || right < (ends[it.depth] ?? -1) + .5) return;
    ends[it.depth] = right;
    const x = Math.max(left, -2), wide = Math.max(.5, Math.min(right, width + 2) - x), y = it.depth * ROW;
    const rect = svg("rect", { x, y, width: wide, height: ROW - 1, "data-scope": place });
    const name = nameOf(it.id), shown = Math.max(x, 0) + 4, letters = Math.floor((Math.min(x + wide, width) - shown - 2) / LETTER);
    rect.style.setProperty("--hue", [...name].reduce((hue, letter) => (hue * 31 + letter.codePointAt(0)) % 360, 7));
    const isSelected = selected && selected.thread === at && selected.place === place;
    rect.setAttribute("class", `${wide < 3 ? "thin " : ""}${isSelected ? "selected" : lit !== null && lit !== name ? "dim" : ""}`);
    made.push(rect);
    const label = (it.text ? `${name} (${it.text})` : name).replace(/[\u202a-\u202e\u2066-\u2069]/g, "�");
    if (letters > 2) made.push(svg("text", { x: shown, y: y + 14 }, label.length > letters ? `${label.slice(0, letters - 1)}…` : label));
  });
  root.replaceChildren(...made);
}

function drawRuler(width) {
  const least = (view.to - view.from) / Math.max(1, width / 110), ten = 10 ** Math.floor(Math.log10(least));
  const step = [1, 2, 5, 10].map((it) => it * ten).find((it) => it >= least), made = [];
  for (let at = Math.ceil(view.from / step); at * step <= view.to && made.length < 100; at++) {
    const x = (at * step - view.from) / (view.to - view.from) * width;
    made.push(svg("line", { x1: x, x2: x, y1: 0, y2: 20 }), svg("text", { x: x + 3, y: 13 }, time(Number((at * step).toPrecision(12)))));
  }
  byId("ruler").replaceChildren(...made);
}

function drawFlame() {
  isDue = false;
  const width = widthOf(byId("ruler"));
  drawRuler(width);
  for (const root of byId("threads").querySelectorAll("svg")) drawThread(root, Number(root.dataset.thread), width);
}
function drawSoon() {
  if (!isDue) requestAnimationFrame(drawFlame);
  isDue = true;
}
function show(from, to) {
  const length = limited(to - from, Math.min(10, extent.to - extent.from), extent.to - extent.from);
  const start = limited(from, extent.from, extent.to - length);
  view = { from: start, to: start + length };
  drawSoon();
}
const showWhole = () => show(extent.from, extent.to);
const zoom = (factor, at = (view.from + view.to) / 2) => show(at - (at - view.from) * factor, at + (view.to - at) * factor);
const pan = (part) => show(view.from + (view.to - view.from) * part, view.to + (view.to - view.from) * part);

function tell(scope = selected && frame.threads[selected.thread].scopes[selected.place]) {
  if (!scope) return byId("info").replaceChildren(html("span", "Point at a scope, or choose one with the arrow keys."));
  const { id, text, start, duration, nested } = scope, place = placeOf(id);
  const parts = [text && `“${text}”`, time(duration), `own ${time(Math.max(0, duration - nested))}`, `${percent(duration, frame.duration)} of the frame`, `begins at ${time(start)}`, place];
  byId("info").replaceChildren(html("b", nameOf(id)), ...parts.filter(Boolean).map((it) => html("span", it)));
}
const under = (event) => {
  const rect = event.target.closest?.(".thread rect");
  return rect && { thread: Number(rect.parentNode.dataset.thread), place: Number(rect.dataset.scope) };
};
const scopeAt = (it) => frame.threads[it.thread].scopes[it.place];
function select(it) {
  selected = it;
  const { start, duration } = scopeAt(it);
  if (start + duration < view.from || start > view.to) show(start - (view.to - view.from) / 4, start + (view.to - view.from) * 3 / 4);
  byId("threads").querySelector(`[data-thread="${it.thread}"]`).scrollIntoView({ block: "nearest" });
  tell();
  drawSoon();
}
const zoomTo = (it) => { const { start, duration } = scopeAt(it); show(start - duration / 20, start + duration * 21 / 20); };

// Where an arrow key leads: to the parent, to the first scope within, or to the scope beside; beyond those, to the next thread.
function beside(it, key) {
  if (!it) return firstFrom(0, 1);
  const { scopes } = frame.threads[it.thread], { depth, parent } = scopes[it.place];
  if (key === "ArrowUp") return parent >= 0 ? { ...it, place: parent } : firstFrom(it.thread - 1, -1);
  if (key === "ArrowDown") return scopes[it.place + 1]?.depth > depth ? { ...it, place: it.place + 1 } : firstFrom(it.thread + 1, 1);
  const step = key === "ArrowLeft" ? -1 : 1;
  for (let place = it.place + step; scopes[place]; place += step) if (scopes[place].depth === depth) return { ...it, place };
}
function firstFrom(thread, step) {
  while (frame.threads[thread] && !frame.threads[thread].scopes.length) thread += step;
  return frame.threads[thread] && { thread, place: 0 };
}

byId("flame").addEventListener("keydown", (event) => {
  if (event.ctrlKey || event.metaKey || event.altKey) return;
  const { key } = event, found = /^Arrow/.test(key) && !event.shiftKey && beside(selected, key);
  if (found) select(found);
  else if (event.shiftKey && key === "ArrowLeft") pan(-.2);
  else if (event.shiftKey && key === "ArrowRight") pan(.2);
  else if (key === "+" || key === "=") zoom(.7);
  else if (key === "-") zoom(1 / .7);
  else if (key === "Enter" && selected) zoomTo(selected);
  else if (key === "Escape" || key === "0") showWhole();
  else if (!/^Arrow/.test(key)) return;
  event.preventDefault();
});
let dragged = null;
byId("flame").addEventListener("pointerdown", (event) => { dragged = { x: event.clientX, view, under: under(event), isMoved: false }; });
addEventListener("pointermove", (event) => {
  if (!dragged) return;
  const moved = event.clientX - dragged.x, shift = moved / widthOf(byId("ruler")) * (dragged.view.to - dragged.view.from);
  dragged.isMoved ||= Math.abs(moved) > 4;
  if (dragged.isMoved) show(dragged.view.from - shift, dragged.view.to - shift);
});
addEventListener("pointerup", () => {
  if (dragged && !dragged.isMoved && dragged.under) select(dragged.under);
  dragged = null;
});
addEventListener("pointercancel", () => { dragged = null; });
byId("flame").addEventListener("pointerover", (event) => { const it = under(event); tell(it ? scopeAt(it) : undefined); });
byId("flame").addEventListener("pointerleave", () => tell());
byId("flame").addEventListener("dblclick", (event) => { const it = under(event); if (it) zoomTo(it); });
byId("flame").addEventListener("wheel", (event) => {
  const { left, width } = byId("ruler").getBoundingClientRect(), at = view.from + (event.clientX - left) / width * (view.to - view.from);
  if (event.ctrlKey || event.metaKey) zoom(Math.exp(limited(event.deltaY, -200, 200) / 300), at);
  else if (event.shiftKey || Math.abs(event.deltaX) > Math.abs(event.deltaY)) pan((event.deltaX || event.deltaY) / width);
  else return;
  event.preventDefault();
}, { passive: false });
byId("closer").onclick = () => zoom(.5);
byId("farther").onclick = () => zoom(2);
byId("whole").onclick = showWhole;

// ---- the table

const ranked = (sorted, part) => sorted[Math.ceil(sorted.length * part / 100) - 1];
const columns = ["name", "calls", "total", "own", "least", "median", "95 %", "99 %", "greatest", "share"];
let sortedBy = 3, isAll = false;

function rowOf({ name, times, nested }, whole) {
  const total = times.reduce((sum, it) => sum + it, 0), sorted = Float64Array.from(times).sort(), own = Math.max(0, total - nested);
  return [name, times.length, total, own, sorted[0], ranked(sorted, 50), ranked(sorted, 95), ranked(sorted, 99), sorted.at(-1), whole > 0 ? own / whole : 0];
}
function drawTable() {
  const isOne = byId("extent").value === "one", times = isOne ? new Map() : allTimes, whole = isOne ? frame.duration : wholeTime;
  if (isOne) addTimes(times, frame);
  const rows = [...times.values()].map((it) => rowOf(it, whole));
  rows.sort((a, b) => sortedBy ? b[sortedBy] - a[sortedBy] : a[0] < b[0] ? -1 : 1);
  document.querySelector("thead tr").replaceChildren(...columns.map((it, at) => {
    const head = html("th", ""), button = html("button", it);
    head.scope = "col";
    if (at === sortedBy) head.setAttribute("aria-sort", at ? "descending" : "ascending");
    button.onclick = () => { sortedBy = at; drawTable(); };
    head.append(button);
    return head;
  }));
  const shown = isAll ? rows : rows.slice(0, LIMIT);
  document.querySelector("tbody").replaceChildren(...shown.map((row) => {
    const line = html("tr", "");
    line.append(...row.map((it, at) => html("td", at === 0 ? it : at === 1 ? grouped(it) : at === 9 ? percent(it, 1) : time(it))));
    line.className = row[0] === lit ? "lit" : "";
    line.onclick = () => { lit = lit === row[0] ? null : row[0]; drawTable(); drawSoon(); };
    return line;
  }));
  const more = html("button", `Show all ${grouped(rows.length)}`);
  more.onclick = () => { isAll = true; drawTable(); };
  byId("rows").replaceChildren(`${grouped(rows.length)} names. Click one to find its scopes. `, ...(shown.length < rows.length ? [more] : []));
}
byId("extent").onchange = drawTable;

// ---- the beginning

const asked = () => frames.findIndex((it) => String(it.index) === location.hash.slice(1));
addEventListener("hashchange", () => { if (asked() >= 0) choose(asked()); });
if (frames.length) {
  const last = frames.at(-1);
  byId("summary").textContent = `${grouped(frames.length)} frames, ${grouped(frames[0].index)} to ${grouped(last.index)}; the slowest took ${time(frames[slowest].duration)}`;
  document.querySelector("main").hidden = false;
  choose(Math.max(0, asked() < 0 ? slowest : asked()));
  drawTable();
  new ResizeObserver(() => { drawBars(); drawSoon(); }).observe(byId("bars"));
} else byId("summary").textContent = "This page has no frames.";
</script>
"##;
