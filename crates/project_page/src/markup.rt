// The fixed pieces of a page, in HTML 5. What is between them is said by the project.

pub(crate) const HEAD: &str = r#"<!DOCTYPE html>
<html lang="en">
<head>
<meta charset="utf-8">
<meta name="viewport" content="width=device-width, initial-scale=1">
<meta name="color-scheme" content="light dark">
<meta http-equiv="Content-Security-Policy" content="default-src 'none'; img-src data:;
style-src 'sha256-x8TgtxdaoXVpkx9poeLFAi93KInnJMQwIplZpifQqsY=';
script-src 'sha256-QYdRkv8+a+5RF9W+SUBA8nc/R413B8g7VeR2kuk0Scw='">
<title>How the copy of "#;

// The end of the title, how the page looks, and its beginning. The shades go from nothing to all.
pub(crate) const BODY: &str = r#" stands</title>
<style>
:root { --ink: #1c1c1a; --soft: #5f5e59; --page: #fdfdfb; --line: #cfcdc6; --mark: #ffe08a;
  --none: #efeee9; --few: #cfe0ef; --some: #93bcdd; --most: #3f7fb5; --all: #174f80; --light: #fff }
@media (prefers-color-scheme: dark) {
  :root { --ink: #eceae4; --soft: #aaa8a0; --page: #191918; --line: #4b4a46; --mark: #6b5200;
    --none: #2b2b29; --few: #1f3a52; --some: #2c5f8a; --most: #6fa8d6; --all: #bcdcf5;
    --light: #101010 }
}
* { box-sizing: border-box }
body { margin: 0 auto; padding: 1rem; max-width: 72rem; background: var(--page); color: var(--ink);
  font: 1rem/1.5 system-ui, sans-serif; overflow-wrap: anywhere }
h1 { font-size: 1.6rem; line-height: 1.2 }
h2 { margin: 2.5rem 0 1rem; border-bottom: 2px solid var(--line); font-size: 1.3rem }
h3 { margin: 0; font-size: 1.1rem }
h4 { margin: .5rem 0 0; color: var(--soft); font-size: .85rem; font-weight: normal }
dl { display: grid; grid-template-columns: fit-content(70%) 1fr; gap: .2rem 1.5rem; margin: 0 }
dt { color: var(--soft) }
dd { margin: 0; font-variant-numeric: tabular-nums }
a { color: inherit }
table { width: 100%; table-layout: fixed; border-collapse: collapse }
caption { padding-bottom: .75rem; text-align: left }
tr { border-top: 1px solid var(--line) }
th { padding: .4rem .5rem .4rem 0; text-align: left; vertical-align: top }
th:first-child { width: 4rem }
td { padding: .4rem 0 }
[scope=col] { color: var(--soft); font-size: .85rem; font-weight: normal }
.chapter { display: inline-block; position: relative; min-width: 2.1em; margin: 1px 0;
  padding: 0 .25em; border: 1px solid var(--line); border-radius: .2em; font-size: .8rem;
  line-height: 1.7; text-align: center }
.none { background: var(--none) }
.few { background: var(--few) }
.some { background: var(--some) }
.most { background: var(--most); color: var(--light) }
.all { background: var(--all); color: var(--light) }
.count { position: absolute; width: 1px; height: 1px; overflow: hidden; clip-path: inset(50%);
  white-space: nowrap }
.chapter:hover .count { z-index: 1; bottom: 110%; left: 0; width: auto; height: auto;
  padding: 0 .5em; clip-path: none; border: 1px solid var(--line); background: var(--page);
  color: var(--ink) }
fieldset { min-width: 0; margin: 0 0 1.5rem; padding: .75rem; border: 1px solid var(--line);
  border-radius: .3rem }
legend { padding: 0 .4rem }
p { margin: .25rem 0 }
.texts { display: grid; grid-template-columns: repeat(auto-fit, minmax(min(16rem, 100%), 1fr));
  gap: .75rem; margin: .75rem 0 }
.texts > div { padding: .5rem .75rem; border: 1px solid var(--line); border-radius: .3rem }
.said { white-space: pre-wrap; unicode-bidi: plaintext }
.near, .by, bdi { color: var(--soft) }
.by { font-size: .85rem }
.picked { font-weight: bold }
label { font-weight: bold }
input { width: 1.1em; height: 1.1em; margin: 0 .4em 0 0; vertical-align: -.15em }
textarea, [type=text] { display: block; width: 100%; height: auto; margin: .25rem 0; padding: .4rem;
  border: 1px solid var(--line); border-radius: .2rem; background: none; color: inherit;
  font: inherit }
button { padding: .5rem 1rem; font: inherit }
.write { position: sticky; bottom: 0; padding: .5rem 0; border-top: 1px solid var(--line);
  background: var(--page) }
mark { background: var(--mark); color: inherit; text-decoration: underline }
@media print {
  :root { --ink: #000; --soft: #333; --page: #fff; --line: #888; --mark: #eee }
  * { print-color-adjust: exact; -webkit-print-color-adjust: exact }
  body { max-width: none; padding: 0; font-size: 10pt }
  fieldset, tr { break-inside: avoid }
  .answer, .write { display: none }
  h2, h3 { break-after: avoid }
}
</style>
</head>
<body>
<h1>How the project stands</h1>
<dl>
<dt>Copy</dt><dd>"#;

// ---- how the project stands

pub(crate) const BOOKS: &str = "<dt>Books</dt><dd>";

pub(crate) const VERSES: &str = "<dt>Verses with a text</dt><dd>";

pub(crate) const MAKER: &str = "<dt>Texts by ";

pub(crate) const MAKER_COUNT: &str = "</dt><dd>";

pub(crate) const REPLACED: &str = "<dt>Texts replaced</dt><dd>";

pub(crate) const THINNED: &str = "<dt>Of these without their texts</dt><dd>";

pub(crate) const CONFLICTS_ROW: &str = r##"<dt><a href="#conflicts">Conflicts</a></dt><dd>"##;

pub(crate) const AWAITED_ROW: &str = r##"<dt><a href="#awaited">Awaited</a></dt><dd>"##;

pub(crate) const ROW_END: &str = "</dd>\n";

// ---- how far the chapters are

pub(crate) const PROGRESS: &str = r#"</dl>
<h2>Progress</h2>
<table>
<caption>Each chapter by how many of its verses have a text:
<span class="chapter none">none</span>
<span class="chapter few">less than a third</span>
<span class="chapter some">a third or more</span>
<span class="chapter most">two thirds or more</span>
<span class="chapter all">all</span></caption>
<tr><th scope="col">Book</th><th scope="col">Chapters</th></tr>
"#;

pub(crate) const BOOK: &str = r#"<tr><th scope="row">"#;

pub(crate) const CHAPTERS: &str = "</th><td>\n";

pub(crate) const CHAPTER: &str = r#"<span class="chapter "#;

pub(crate) const NONE: &str = "none";

pub(crate) const FEW: &str = "few";

pub(crate) const SOME: &str = "some";

pub(crate) const MOST: &str = "most";

pub(crate) const ALL: &str = "all";

pub(crate) const CHAPTER_NUMBER: &str = r#"">"#;

pub(crate) const CHAPTER_WRITTEN: &str = r#"<span class="count">: "#;

pub(crate) const CHAPTER_VERSES: &str = " of ";

pub(crate) const CHAPTER_END: &str = "</span></span>\n";

pub(crate) const BOOK_END: &str = "</td></tr>\n";

// ---- what is in conflict

pub(crate) const CONFLICTS: &str = r#"</table>
<h2 id="conflicts">Conflicts: "#;

pub(crate) const COUNT_END: &str = "</h2>\n";

pub(crate) const CONFLICT: &str = r#"<fieldset data-ids=""#;

pub(crate) const ID: &str = " ";

pub(crate) const ID_NAME: &str = ":";

pub(crate) const LEGEND: &str = "\">\n<legend><h3>";

pub(crate) const BEFORE: &str =
    "<h4>Before it</h4>\n<p class=\"said near\" dir=\"auto\" lang=\"und\">";

pub(crate) const AFTER: &str =
    "<h4>After it</h4>\n<p class=\"said near\" dir=\"auto\" lang=\"und\">";

pub(crate) const TEXT: &str = r#"<p class="said" dir="auto" lang="und">"#;

pub(crate) const LINE_END: &str = "</p>\n";

pub(crate) const MARK: &str = "<bdi>";

pub(crate) const MARK_END: &str = "</bdi>";

pub(crate) const DIFFERS: &str = "<mark>";

pub(crate) const DIFFERS_END: &str = "</mark>";

pub(crate) const NAMED: &str = "</h3></legend>\n";

pub(crate) const TEXTS: &str = "<div class=\"texts\">\n";

pub(crate) const ENTRY: &str = r#"<div><label><input type="checkbox">Text "#;

pub(crate) const ENTRY_BY: &str = "</label>\n<p class=\"by\">by ";

pub(crate) const OPERATION: &str = ", operation ";

pub(crate) const IN_BOOK: &str = "<p class=\"picked\">In the book</p>\n";

pub(crate) const IN_BOOK_AS: &str = r#"<p class="picked">In the book as \c "#;

pub(crate) const NO_TEXT: &str = "<p class=\"by\">No text</p>\n";

pub(crate) const DIV_END: &str = "</div>\n";

pub(crate) const REPEATED: &str = r#"<p class="by">One of these texts too by "#;

pub(crate) const CONFLICT_END: &str = "</fieldset>\n";

// ---- what is awaited

pub(crate) const AWAITED: &str = r#"<h2 id="awaited">Awaited: "#;

pub(crate) const AWAITED_BY: &str = r#"<p>By "#;

// The script is answers.js: `carry` writes it here, and the hashes into the policy of the head.
pub(crate) const END: &str = r##"<script>
// Has each conflict of the page answered, and writes the answers as a file, which
// `usfm_team settle PROJECT --answers FILE` takes in. It asks nothing of any network.
"use strict";

// An element with some properties, and what is in it.
function made(name, properties, ...inside) {
  const element = Object.assign(document.createElement(name), properties);
  element.append(...inside);
  return element;
}

// A button to choose with, in a label, after which its words stand.
function choice(reference, value, words) {
  const button = made("input", { type: "radio", name: reference, value });
  button.setAttribute("aria-label", `${reference}: ${words}`);
  return made("label", {}, button, words);
}

// What the browser keeps of a conflict, if it keeps anything.
function kept(key) {
  try {
    return JSON.parse(localStorage.getItem(key)) ?? {};
  } catch {
    return {};
  }
}

// Has the browser keep that. If it keeps nothing, what was ticked stays as long as the page does.
function keep(key, answer) {
  try {
    localStorage.setItem(key, JSON.stringify(answer));
  } catch {}
}

// A text after its length in bytes.
function counted(word, text) {
  return `${word} ${new TextEncoder().encode(text).length}\n${text}\n`;
}

// A conflict of the page: which texts it has, and what is chosen.
class Conflict {
  constructor(fieldset) {
    this.fieldset = fieldset;
    this.reference = fieldset.querySelector("legend").textContent;
    this.ids = fieldset.dataset.ids.trim().split(" ");
    this.entries = [...fieldset.querySelectorAll(".texts > div")];
    this.texts = this.entries.map((entry) => entry.querySelector(".said")?.textContent);
    // Another project may have the same ids, but not with the same texts.
    this.key = ["usfm_team", this.reference, ...this.ids, ...this.texts].join("\n");
    this.own = made("textarea", { dir: "auto", rows: 4, spellcheck: false });
    this.own.value = this.texts[0] ?? "";
    this.own.setAttribute("aria-label", `${this.reference}: the text of my own`);
    this.remark = made("input", { type: "text", dir: "auto" });
    this.remark.setAttribute("aria-label", `${this.reference}: a remark`);
    this.name();
    this.add();
    this.restore();
    fieldset.addEventListener("input", (event) => this.changed(event.target));
  }

  // Makes one button of a group of the box of each text.
  name() {
    this.entries.forEach((entry, place) => {
      const box = entry.querySelector("input");
      const words = `${box.parentElement.textContent}: ${this.texts[place] ?? "no text"}`;
      Object.assign(box, { type: "radio", name: this.reference, value: this.ids[place] });
      box.setAttribute("aria-label", `${this.reference}: ${words}`);
    });
  }

  // Adds a text of one's own, not now, and a remark.
  add() {
    const own = made("p", {}, choice(this.reference, "own", "A text of my own"), this.own);
    const later = made("p", {}, choice(this.reference, "later", "Not now"));
    const remark = made("p", {}, made("label", {}, "Remark ", this.remark));
    this.fieldset.append(made("div", { className: "answer" }, own, later, remark));
  }

  // What is chosen: an id, `own` or `later`.
  get chosen() {
    return this.fieldset.querySelector("input:checked").value;
  }

  // Whoever types a text has chosen it. What is chosen is kept.
  changed(element) {
    if (element === this.own) {
      this.choose("own");
    }
    keep(this.key, { chosen: this.chosen, text: this.own.value, remark: this.remark.value });
  }

  // Ticks the button of this value.
  choose(value) {
    for (const button of this.fieldset.querySelectorAll("[type=radio]")) {
      button.checked = button.value === value;
    }
  }

  // Has what was chosen before.
  restore() {
    const { chosen = "later", text = this.own.value, remark = "" } = kept(this.key);
    this.choose(chosen);
    this.own.value = text;
    this.remark.value = remark;
  }

  // The lines of the answer: none, if nothing is chosen and nothing remarked. A text ends its line.
  get lines() {
    const { chosen, remark } = this;
    const text = this.own.value.replace(/\n?$/, "\n");
    let lines = "";
    if (this.ids.includes(chosen)) {
      lines += `take ${chosen}\n`;
    } else if (chosen === "own" && text.trim() !== "") {
      lines += counted("text", text);
    }
    if (remark.value !== "") {
      lines += counted("remark", remark.value);
    }
    return lines && `conflict ${this.reference} ${this.ids.join(" ")}\n${lines}`;
  }
}

// Gives the answers to the browser as a file, named by the copy and the day.
function write(conflicts) {
  const lines = conflicts.map((conflict) => conflict.lines);
  const file = new Blob(["USFM answers 1\n", ...lines], { type: "application/octet-stream" });
  const copy = document.querySelector("dd").textContent;
  const link = made("a", { href: URL.createObjectURL(file) });
  link.download = `${copy}-${new Date().toISOString().slice(0, 10)}.answers`;
  link.click();
  setTimeout(() => URL.revokeObjectURL(link.href), 60000);
}

const conflicts = [...document.querySelectorAll("fieldset")].map((it) => new Conflict(it));
if (conflicts.length > 0) {
  const button = made("button", { type: "button" }, "Write the answers as a file");
  const count = made("span", { role: "status" });
  const tell = () => {
    const answered = conflicts.filter((conflict) => conflict.lines !== "").length;
    count.textContent = ` ${answered} of ${conflicts.length} answered`;
  };
  button.addEventListener("click", () => write(conflicts));
  document.addEventListener("input", tell);
  document.querySelector("#awaited").before(made("p", { className: "write" }, button, count));
  tell();
}
</script>
</body>
</html>
"##;
