//! The page of `moo serve --web`, with the head of its response. `web/build` writes this file from `web/index.html`.

/// Holds the whole response to `GET /`.
pub const PAGE: &[u8] = b"\
HTTP/1.1 200 OK\r\n\
Content-Type: text/html; charset=utf-8\r\n\
Content-Length: 43173\r\n\
Content-Security-Policy: default-src 'none'; script-src 'sha256-BqRHDF5vsNjUwwSHtGhiRayb9GfBdNBb54e+6jWPxDg='; style-src 'sha256-thrpMf2pGlfBpcIioRODKBZQNqc4Zpb8yzcI5HLetVI='; connect-src 'self'; img-src data:; base-uri 'none'; form-action 'none'; frame-ancestors 'none'\r\n\
X-Content-Type-Options: nosniff\r\n\
Referrer-Policy: no-referrer\r\n\
Cross-Origin-Opener-Policy: same-origin\r\n\
Cross-Origin-Resource-Policy: same-origin\r\n\
Cache-Control: no-cache\r\n\
Connection: close\r\n\
\r\n\
<!doctype html>\n\
<html lang=\"en\">\n\
<head>\n\
<meta charset=\"utf-8\">\n\
<meta name=\"viewport\" content=\"width=device-width, initial-scale=1, interactive-widget=resizes-content\">\n\
<meta name=\"color-scheme\" content=\"dark light\">\n\
<meta name=\"referrer\" content=\"no-referrer\">\n\
<title>MOO</title>\n\
<link rel=\"icon\" href=\"data:image/svg+xml,%3Csvg xmlns='http://www.w3.org/2000/svg' viewBox='0 0 16 16'%3E%3Crect width='16' height='16' rx='4' fill='%230f766e'/%3E%3Cpath d='M4 5l3 3-3 3M8.500 11H12' stroke='%23fff' stroke-width='1.600' fill='none' stroke-linecap='round' stroke-linejoin='round'/%3E%3C/svg%3E\">\n\
<style>\n\
:root{\n\
\x20 --size:15px; --mono:ui-monospace,\"Cascadia Mono\",\"SF Mono\",Menlo,Consolas,\"DejaVu Sans Mono\",monospace;\n\
\x20 --ui:system-ui,-apple-system,\"Segoe UI\",Roboto,\"DejaVu Sans\",sans-serif;\n\
\x20 --bg:#101418; --bar:#171c22; --box:#1d242b; --line:#2c353f; --edge:#6d7a87; --text:#d9e0e6; --dim:#94a1ad; --accent:#5fc9b8; --on:#06201c;\n\
\x20 --own:#8fb8e8; --warn:#f0b76a; --bad:#f18a83; --good:#6fcf97; --link:#83c5ff; --speech:#e6cf9a; --private:#d7a6f0; --exits:#8fd6a8; --number:#a9b58a; --shadow:0 6px 24px #0008;\n\
}\n\
@media (prefers-color-scheme:light){:root:not([data-theme=dark]){\n\
\x20 --bg:#fbfaf7; --bar:#f2f0ea; --box:#fff; --line:#d8d4ca; --edge:#88837a; --text:#23282d; --dim:#626a72; --accent:#0b6b60; --on:#fff;\n\
\x20 --own:#24548a; --warn:#8a5300; --bad:#b3261e; --good:#1c7a45; --link:#0a5ea8; --speech:#6b4e00; --private:#7a2a9a; --exits:#1c6b3a; --number:#55601a; --shadow:0 6px 24px #0003;\n\
}}\n\
:root[data-theme=light]{\n\
\x20 --bg:#fbfaf7; --bar:#f2f0ea; --box:#fff; --line:#d8d4ca; --edge:#88837a; --text:#23282d; --dim:#626a72; --accent:#0b6b60; --on:#fff;\n\
\x20 --own:#24548a; --warn:#8a5300; --bad:#b3261e; --good:#1c7a45; --link:#0a5ea8; --speech:#6b4e00; --private:#7a2a9a; --exits:#1c6b3a; --number:#55601a; --shadow:0 6px 24px #0003;\n\
}\n\
:root[data-theme=light]{color-scheme:light} :root[data-theme=dark]{color-scheme:dark}\n\
*{box-sizing:border-box}\n\
html,body{height:100%;margin:0}\n\
body{display:grid;grid-template:auto minmax(0,1fr) auto/minmax(0,1fr);height:100dvh;background:var(--bg);color:var(--text);font:14px/1.45 var(--ui);overflow:hidden}\n\
body.editing{grid-template-columns:minmax(0,1fr) minmax(340px,44%)}\n\
button,input,select,textarea{font:inherit;color:inherit}\n\
button{background:var(--box);border:1px solid var(--edge);border-radius:8px;padding:6px 11px;cursor:pointer}\n\
button:hover{border-color:var(--accent)}\n\
button.go{background:var(--accent);border-color:var(--accent);color:var(--on);font-weight:600}\n\
button:disabled{opacity:.5;cursor:default}\n\
:focus-visible{outline:2px solid var(--accent);outline-offset:2px}\n\
::selection{background:var(--accent);color:var(--on)}\n\
[hidden]{display:none!important}\n\
.sr{position:absolute;width:1px;height:1px;overflow:hidden;clip-path:inset(50%);white-space:nowrap}\n\
.skip:focus{position:fixed;left:8px;top:8px;width:auto;height:auto;clip-path:none;background:var(--accent);color:var(--on);padding:8px 12px;border-radius:8px;z-index:9}\n\
\n\
header{grid-area:1/1/2/-1;display:flex;align-items:center;gap:8px;padding:8px 12px;background:var(--bar);border-bottom:1px solid var(--line)}\n\
header h1{font-size:15px;margin:0;white-space:nowrap;overflow:hidden;text-overflow:ellipsis}\n\
#state{display:flex;align-items:center;gap:7px;color:var(--dim);white-space:nowrap;font-size:13px;margin-right:auto;overflow:hidden}\n\
#dot{flex:none;width:9px;height:9px;border-radius:50%;background:var(--warn)}\n\
#dot.up{background:var(--good)} #dot.down{background:var(--bad)}\n\
header button{padding:5px 9px;min-height:32px}\n\
\n\
main{grid-area:2/1/3/2;position:relative;min-height:0;display:flex}\n\
#log{flex:1;overflow-y:auto;overflow-anchor:none;padding:12px 16px 18px;font:var(--size)/1.5 var(--mono);scrollbar-gutter:stable;overscroll-behavior:contain}\n\
#log .in,footer .in{max-width:calc(var(--size)*56);margin:0 auto}\n\
#log:focus-visible{outline-offset:-3px}\n\
.l{white-space:pre-wrap;overflow-wrap:anywhere;min-height:1.5em;tab-size:8;padding-left:var(--in,0);text-indent:calc(0px - var(--in,0px))}\n\
.own{color:var(--own)} .own::before{content:\"\\203A\\00a0\";color:var(--dim)}\n\
.note{color:var(--dim);font-family:var(--ui);font-size:.9em;margin:.5em 0;padding-left:10px;border-left:3px solid var(--line)}\n\
.note.bad{color:var(--bad);border-color:var(--bad)} .note.good{color:var(--good);border-color:var(--good)}\n\
.mark{border-top:1px dashed var(--accent);margin:6px 0;height:0}\n\
.rule{white-space:pre;overflow:hidden}\n\
.l.narrow{padding-left:calc(var(--in,0px) + 2ch);text-indent:calc(-2ch - var(--in,0px))} .narrow .gap{white-space:normal;margin-right:1ch}\n\
body.flow .l.j,body.flow .l.k{display:inline} body.flow .l.j::before{content:none} body.flow .l.j::after{content:\" \"} body.flow .l.k::after{content:\"\\A\";white-space:pre}\n\
::placeholder{color:var(--dim);opacity:1}\n\
.speech{color:var(--speech)} .private{color:var(--private)} .exits{color:var(--exits)} .number{color:var(--number)}\n\
.l a{color:var(--link);text-underline-offset:2px}\n\
body.times:not(.flow) .l{position:relative;padding-left:calc(7.5ch + var(--in,0px))}\n\
body.times:not(.flow) .l[data-t]::after{content:attr(data-t);position:absolute;left:0;top:0;color:var(--dim);font-size:.8em;line-height:1.9;text-indent:0;-webkit-user-select:none;user-select:none}\n\
.hit,.hit *,.hit::before{background:var(--accent);color:var(--on)!important}\n\
#find{position:absolute;top:8px;right:22px;z-index:2;display:flex;gap:6px;align-items:center;background:var(--bar);border:1px solid var(--line);border-radius:12px;padding:6px;box-shadow:var(--shadow)}\n\
#find input{width:200px;min-width:0;padding:6px 10px} #find button{flex:none;min-width:34px;min-height:34px;padding:4px 9px}\n\
#found{color:var(--dim);font-size:13px;white-space:nowrap;min-width:4.5em;text-align:center}\n\
body.times:not(.flow) .l.narrow{padding-left:calc(9.5ch + var(--in,0px))}\n\
#more{position:absolute;right:22px;bottom:14px;background:var(--accent);color:var(--on);border-color:var(--accent);border-radius:999px;box-shadow:var(--shadow);font-weight:600}\n\
\n\
footer{grid-area:3/1/4/2;overflow:hidden;scrollbar-gutter:stable;background:var(--bar);border-top:1px solid var(--line);padding:8px 16px max(6px,env(safe-area-inset-bottom))}\n\
#sign{display:flex;flex-wrap:wrap;gap:8px;align-items:center;margin-bottom:8px}\n\
#sign label{display:contents} #sign input{flex:1 1 120px;min-width:0;max-width:240px;padding:8px 10px} #sign button{min-height:38px}\n\
input,select,textarea{background:var(--box);border:1px solid var(--edge);border-radius:8px}\n\
#pad{display:flex;gap:6px;overflow-x:auto;margin-bottom:8px;scrollbar-width:none}\n\
#pad button{flex:none;min-width:44px;min-height:40px;padding:4px 10px}\n\
#row{display:flex;gap:8px;align-items:flex-end}\n\
#type{flex:1;min-width:0;resize:none;padding:9px 12px;font:var(--size)/1.4 var(--mono);max-height:38vh;min-height:42px;display:block}\n\
#send{min-height:42px;padding:0 16px}\n\
#hint{color:var(--dim);font-size:12.5px;min-height:1.45em;margin-top:4px}\n\
#told.bad{color:var(--warn);font-weight:600}\n\
\n\
#panel{grid-area:2/2/4/3;border-left:1px solid var(--line);background:var(--bar);display:flex;flex-direction:column;gap:8px;padding:12px;min-height:0;min-width:0}\n\
#panel h2,dialog h2{font-size:15px;margin:0}\n\
#panel .head{display:flex;align-items:center;justify-content:space-between}\n\
#panel .bar{display:flex;flex-wrap:wrap;gap:8px;align-items:center}\n\
#panel input{padding:6px 10px;font:13.5px/1.6 var(--mono);flex:1 1 150px;min-width:0}\n\
#code{flex:1;min-height:120px;resize:none;padding:10px;font:13.5px/1.5 var(--mono);white-space:pre;overflow:auto;tab-size:2}\n\
#code.text{white-space:pre-wrap;overflow-wrap:anywhere}\n\
#said{white-space:pre-wrap;font:13px/1.45 var(--mono);max-height:24vh;overflow:auto;margin:0;color:var(--dim)}\n\
#said.bad{color:var(--bad)} #said.good{color:var(--good)}\n\
\n\
dialog{background:var(--box);color:inherit;border:1px solid var(--line);border-radius:14px;box-shadow:var(--shadow);padding:18px 20px;width:min(430px,calc(100vw - 24px));max-height:calc(100dvh - 24px)}\n\
dialog::backdrop{background:#0007}\n\
dialog .opt{display:flex;justify-content:space-between;align-items:center;gap:12px;padding:7px 0;border-bottom:1px solid var(--line)}\n\
dialog .opt select,dialog .opt button{padding:5px 9px;background:var(--bar)}\n\
dialog .opt input{width:20px;height:20px;accent-color:var(--accent)}\n\
dialog dl{display:grid;grid-template-columns:auto 1fr;gap:3px 14px;margin:10px 0;font-size:13px}\n\
dt{font-family:var(--mono);color:var(--accent);white-space:nowrap} dd{margin:0}\n\
.acts{display:flex;flex-wrap:wrap;gap:8px;margin-top:12px}\n\
\n\
@media (max-width:820px){\n\
\x20 body.editing{grid-template-columns:minmax(0,1fr)}\n\
\x20 #panel{grid-area:2/1/4/2;border-left:0;z-index:3}\n\
}\n\
@media (max-width:560px){\n\
\x20 header{padding:6px 8px;gap:5px} header h1{font-size:14px} header .wide{display:none}\n\
\x20 #log{padding:8px 10px 12px} footer{padding:6px 8px max(6px,env(safe-area-inset-bottom))}\n\
\x20 #type,input,#panel input,select,#code{font-size:16px} #hint{min-height:0}\n\
\x20 #find{left:8px;right:8px} #find input{flex:1;width:0}\n\
\x20 body.off header h1{position:absolute;width:1px;height:1px;overflow:hidden;clip-path:inset(50%)}\n\
\x20 #sign input{max-width:none;flex-basis:40%} #sign button{flex:1}\n\
\x20 #dot.up + span{position:absolute;width:1px;height:1px;overflow:hidden;clip-path:inset(50%)}\n\
}\n\
@media (prefers-reduced-motion:no-preference){#dot.wait{animation:b 1.2s infinite alternate}@keyframes b{to{opacity:.25}}}\n\
@media (forced-colors:active){#dot{forced-color-adjust:none}.hit{outline:2px solid}}\n\
@media print{header,footer,#panel,#more{display:none}body,main,#log{display:block;height:auto;overflow:visible}}\n\
</style>\n\
</head>\n\
<body>\n\
<a class=\"sr skip\" href=\"#type\">To the line of input</a>\n\
<header>\n\
\x20 <h1 id=\"name\">MOO</h1>\n\
\x20 <div id=\"state\" role=\"status\"><span id=\"dot\" class=\"wait\"></span><span id=\"said-state\">connecting ..</span><span id=\"count\" aria-hidden=\"true\"></span></div>\n\
\x20 <button id=\"again\" hidden>Connect</button>\n\
\x20 <button id=\"edit\" aria-expanded=\"false\" aria-controls=\"panel\" title=\"Editor (Alt+E)\">Editor</button>\n\
\x20 <button id=\"seek\" class=\"wide\" aria-expanded=\"false\" aria-controls=\"find\" title=\"Find in the log (Ctrl+Shift+F)\">Find</button>\n\
\x20 <button id=\"smaller\" class=\"wide\" aria-label=\"Smaller text\">A&minus;</button>\n\
\x20 <button id=\"larger\" class=\"wide\" aria-label=\"Larger text\">A+</button>\n\
\x20 <button id=\"options\" aria-haspopup=\"dialog\" title=\"Settings and keys (F1)\">Settings</button>\n\
</header>\n\
<main>\n\
\x20 <div id=\"log\" role=\"log\" aria-live=\"polite\" aria-relevant=\"additions\" aria-label=\"What the world says\" tabindex=\"0\"><div class=\"in\" id=\"lines\"></div></div>\n\
\x20 <button id=\"more\" hidden></button>\n\
\x20 <form id=\"find\" role=\"search\" hidden><label class=\"sr\" for=\"sought\">Find in the log</label><input id=\"sought\" placeholder=\"Find in the log\" autocapitalize=\"off\" autocomplete=\"off\" spellcheck=\"false\" enterkeyhint=\"search\"><span id=\"found\" role=\"status\"></span><button id=\"earlier\" aria-label=\"Earlier\">&uarr;</button><button id=\"later\" type=\"button\" aria-label=\"Later\">&darr;</button><button id=\"shut-find\" type=\"button\" aria-label=\"Close the search\">Close</button></form>\n\
</main>\n\
<aside id=\"panel\" aria-labelledby=\"panel-name\" hidden>\n\
\x20 <div class=\"head\"><h2 id=\"panel-name\">Editor</h2><button id=\"shut\" aria-label=\"Close the editor\">Close</button></div>\n\
\x20 <form class=\"bar\" id=\"which\"><label class=\"sr\" for=\"verb\">Object and verb</label><input id=\"verb\" placeholder=\"lamp:rub, #12:rub\" autocapitalize=\"off\" autocomplete=\"off\" spellcheck=\"false\"><button id=\"fetch\">Fetch</button><button id=\"save\" type=\"button\" class=\"go\" title=\"Ctrl+S\">Save</button></form>\n\
\x20 <label class=\"sr\" for=\"code\">Program</label>\n\
\x20 <textarea id=\"code\" spellcheck=\"false\" autocapitalize=\"off\" autocomplete=\"off\" placeholder=\"The lines of the program.&#10;Fetch reads them with @list.&#10;Save sends them with .program.\"></textarea>\n\
\x20 <pre id=\"said\" role=\"status\"></pre>\n\
</aside>\n\
<footer><div class=\"in\">\n\
\x20 <form id=\"sign\" hidden aria-label=\"Come in\">\n\
\x20   <label><span class=\"sr\">Name</span><input id=\"who\" name=\"username\" placeholder=\"Name\" autocomplete=\"username\" autocapitalize=\"off\" spellcheck=\"false\"></label>\n\
\x20   <label><span class=\"sr\">Password</span><input id=\"pass\" name=\"password\" type=\"password\" placeholder=\"Password\" autocomplete=\"current-password\"></label>\n\
\x20   <button class=\"go\" value=\"connect\">Connect</button><button value=\"create\">Create</button><button value=\"guest\">Guest</button>\n\
\x20 </form>\n\
\x20 <div id=\"pad\" role=\"group\" aria-label=\"Commands\" hidden></div>\n\
\x20 <form id=\"row\">\n\
\x20   <label class=\"sr\" for=\"type\">Your command</label>\n\
\x20   <textarea id=\"type\" rows=\"1\" autocapitalize=\"off\" autocomplete=\"off\" autocorrect=\"off\" spellcheck=\"false\" enterkeyhint=\"send\" aria-describedby=\"keys\" placeholder=\"Type a command\"></textarea>\n\
\x20   <button id=\"send\" class=\"go\">Send</button>\n\
\x20 </form>\n\
\x20 <div id=\"hint\"><span id=\"keys\">Enter sends &middot; Up: earlier lines &middot; F1: settings and keys</span><span id=\"told\" role=\"status\"></span></div>\n\
</div></footer>\n\
<dialog id=\"set\" aria-labelledby=\"set-name\">\n\
\x20 <h2 id=\"set-name\">Settings</h2>\n\
\x20 <label class=\"opt\">Colours <select id=\"o-theme\"><option value=\"\">as the system</option><option value=\"dark\">dark</option><option value=\"light\">light</option></select></label>\n\
\x20 <div class=\"opt\"><span>Text size</span><span><button id=\"o-less\" aria-label=\"Smaller text\">A&minus;</button> <output id=\"o-size\"></output> <button id=\"o-more\" aria-label=\"Larger text\">A+</button></span></div>\n\
\x20 <label class=\"opt\">Show what I type <input type=\"checkbox\" id=\"o-echo\"></label>\n\
\x20 <label class=\"opt\">Times <input type=\"checkbox\" id=\"o-times\"></label>\n\
\x20 <label class=\"opt\">Buttons for moves <input type=\"checkbox\" id=\"o-pad\"></label>\n\
\x20 <label class=\"opt\">Sound when something comes <input type=\"checkbox\" id=\"o-bell\"></label>\n\
\x20 <label class=\"opt\">Come back by itself <input type=\"checkbox\" id=\"o-back\"></label>\n\
\x20 <label class=\"opt\">Lines kept <select id=\"o-keep\"><option>1000</option><option>5000</option><option>20000</option></select></label>\n\
\x20 <div class=\"acts\"><button id=\"o-seek\">Find in the log</button><button id=\"copy\">Copy the log</button><button id=\"file\">Save the log</button><button id=\"clear\">Clear</button></div>\n\
\x20 <dl><dt>Enter</dt><dd>send; Shift+Enter begins another line</dd><dt>Up, Down</dt><dd>earlier lines; those that begin as typed</dd><dt>PgUp, PgDn</dt><dd>scroll, also while typing</dd><dt>Ctrl+Home, End</dt><dd>the first line, the last</dd><dt>Ctrl+Shift+F</dt><dd>find in the log; Enter goes to earlier lines</dd><dt>Esc</dt><dd>back to the line of input; clears it</dd><dt>Alt+E</dt><dd>editor; Ctrl+S in it saves, Esc closes it</dd><dt>F1</dt><dd>these settings</dd></dl>\n\
\x20 <form method=\"dialog\"><button class=\"go\">Done</button></form>\n\
</dialog>\n\
<script>\n\
'use strict';\n\
const $ = id => document.getElementById(id);\n\
const log = $('log'), lines = $('lines'), type = $('type'), root = document.documentElement;\n\
const VISIBLE = () => document.visibilityState === 'visible' && document.hasFocus();\n\
\n\
// ---- settings\n\
const KEY = 'moo-client';\n\
let isIn = false;\n\
let touch = matchMedia('(pointer:coarse)').matches;\n\
let opt = { theme: '', size: touch ? 14 : 15, echo: true, times: false, pad: touch, bell: false, back: true, keep: 5000, who: '' };\n\
try { Object.assign(opt, JSON.parse(localStorage.getItem(KEY) || '{}')); } catch (e) {}\n\
function keepSettings() { try { localStorage.setItem(KEY, JSON.stringify(opt)); } catch (e) {} }\n\
function applySettings() {\n\
\x20 if (opt.theme) root.dataset.theme = opt.theme; else delete root.dataset.theme;\n\
\x20 root.style.setProperty('--size', opt.size + 'px');\n\
\x20 document.body.classList.toggle('times', opt.times);\n\
\x20 $('pad').hidden = !opt.pad || !isIn;\n\
\x20 $('o-theme').value = opt.theme; $('o-size').textContent = opt.size; $('o-keep').value = String(opt.keep);\n\
\x20 for (const k of ['echo', 'times', 'pad', 'bell', 'back']) $('o-' + k).checked = opt[k];\n\
\x20 columns();\n\
}\n\
for (const k of ['echo', 'times', 'pad', 'bell', 'back']) $('o-' + k).onchange = e => { opt[k] = e.target.checked; keepSettings(); applySettings(); toEnd(); };\n\
$('o-theme').onchange = e => { opt.theme = e.target.value; keepSettings(); applySettings(); };\n\
$('o-keep').onchange = e => { opt.keep = +e.target.value; keepSettings(); trim(); };\n\
function resize(by) { opt.size = Math.min(30, Math.max(10, opt.size + by)); keepSettings(); applySettings(); tell(); grow(); if (stuck) toEnd(); }\n\
$('smaller').onclick = $('o-less').onclick = () => resize(-1);\n\
$('larger').onclick = $('o-more').onclick = () => resize(1);\n\
\n\
// ---- the log\n\
let stuck = true, unseen = 0, missed = 0, mark = null, pending = [], due = false, moving = 0;\n\
const LINK = /\\bhttps?:\\/\\/[^\\s<>\"']+|(?<![\\w#])#-?\\d+\\b/gi;\n\
// What a line of the world is, by how the starter world words it.\n\
const KINDS = [['speech', /^(?:You (?:say|ask|exclaim)|.{1,60}? (?:says|asks|exclaims)),? \"/], ['private', /^.{1,60}? (?:pages|whispers to|page|whisper) [^\"]*: /], ['exits', /^Exits: /]];\n\
function fill(into, text) {\n\
\x20 let at = 0;\n\
\x20 for (const m of text.matchAll(LINK)) {\n\
\x20   if (m[0][0] === '#') {\n\
\x20     words(into, text.slice(at, m.index));\n\
\x20     const n = document.createElement('span');\n\
\x20     n.className = 'number'; n.textContent = m[0]; into.append(n);\n\
\x20     at = m.index + m[0].length;\n\
\x20     continue;\n\
\x20   }\n\
\x20   let to = m[0].length;\n\
\x20   while ('.,;:!?)]}'.includes(m[0][to - 1])) to--;\n\
\x20   let url = m[0].slice(0, to);\n\
\x20   if (m[0][to] === ')' && url.includes('(')) url += ')';\n\
\x20   words(into, text.slice(at, m.index));\n\
\x20   const a = document.createElement('a');\n\
\x20   a.href = url; a.textContent = url; a.target = '_blank'; a.rel = 'noopener noreferrer nofollow';\n\
\x20   into.append(a);\n\
\x20   at = m.index + url.length;\n\
\x20 }\n\
\x20 words(into, text.slice(at));\n\
}\n\
// Spaces between columns are a part of their own: a line that is too long loses them.\n\
function words(into, text) {\n\
\x20 for (const part of text.split(/( {3,})/)) {\n\
\x20   if (!part.startsWith('   ')) { into.append(part); continue; }\n\
\x20   const gap = document.createElement('span');\n\
\x20   gap.className = 'gap'; gap.textContent = part; into.append(gap);\n\
\x20 }\n\
}\n\
const two = n => String(n).padStart(2, '0');\n\
function lineOf(item) {\n\
\x20 const d = document.createElement('div');\n\
\x20 d.className = item.kind === 'said' ? 'l' : item.kind === 'own' ? 'l own' : 'note ' + item.kind;\n\
\x20 const kind = item.kind === 'said' && KINDS.find(k => k[1].test(item.text));\n\
\x20 if (kind) d.classList.add(kind[0]);\n\
\x20 if (item.kind === 'own') d.setAttribute('aria-live', 'off');\n\
\x20 if (/^\\s*([-~=_*#+.])\\1{15,}\\s*$/.test(item.text)) d.classList.add('rule');\n\
\x20 const indent = /^ *\\d+: +|^ {1,12}(?=\\S)/.exec(item.text);\n\
\x20 if (indent) d.style.setProperty('--in', Math.min(indent[0].length, 12) + 'ch');\n\
\x20 d.dataset.t = two(item.at.getHours()) + ':' + two(item.at.getMinutes());\n\
\x20 const head = indent ? indent[0].length : 0;\n\
\x20 d.append(item.text.slice(0, head)); fill(d, item.text.slice(head));\n\
\x20 tabulate(d, item.text.length);\n\
\x20 return d;\n\
}\n\
function put(kind, text) {\n\
\x20 pending.push({ kind, text, at: new Date() });\n\
\x20 if (due) return;\n\
\x20 due = true;\n\
\x20 if (VISIBLE()) requestAnimationFrame(flush); else setTimeout(flush, 60);\n\
}\n\
function flush() {\n\
\x20 due = false;\n\
\x20 if (!pending.length) return;\n\
\x20 const items = pending.length > opt.keep ? pending.slice(-opt.keep) : pending;\n\
\x20 const said = items.filter(i => i.kind === 'said').length;\n\
\x20 pending = [];\n\
\x20 if (!VISIBLE() && said && !mark) { mark = document.createElement('div'); mark.className = 'mark'; lines.append(mark); }\n\
\x20 const all = document.createDocumentFragment();\n\
\x20 for (const item of items) { const d = lineOf(item); paragraph(item, d); all.append(d); }\n\
\x20 lines.append(all);\n\
\x20 trim();\n\
\x20 if (stuck) toEnd(); else { unseen += said; showMore(); }\n\
\x20 if (said && !VISIBLE()) { missed += said; title(); ring(); }\n\
}\n\
// The world breaks its paragraphs at some 77 letters. Where fewer fit, a line that was full goes on with the next.\n\
let last = null;\n\
const PROSE = /^[A-Za-z0-9\"'(](?!.*\\S(?:(?<![.!?:\"]) {2}| {3}))/;\n\
function paragraph(item, d) {\n\
\x20 const before = last;\n\
\x20 last = item.kind === 'said' && PROSE.test(item.text) ? { text: item.text, d } : null;\n\
\x20 if (!before || !last || before.text.length < 56 || before.text.length > 80 || before.text.length + item.text.split(' ', 1)[0].length < 76) return;\n\
\x20 before.d.classList.remove('k'); before.d.classList.add('j'); d.classList.add('k');\n\
}\n\
// The lines of a table, next to each other, lose their columns together.\n\
let fit = 80, table = null;\n\
function tabulate(d, length) {\n\
\x20 if (!d.querySelector('.gap')) { table = null; return; }\n\
\x20 if (!table || table.rows.length > 99) table = { n: 0, rows: [] };\n\
\x20 table.rows.push(d);\n\
\x20 const grew = length > table.n;\n\
\x20 table.n = Math.max(table.n, length);\n\
\x20 for (const row of grew ? table.rows : [d]) { row.dataset.n = table.n; narrow(row); }\n\
}\n\
function narrow(d) { d.classList.toggle('narrow', d.dataset.n > fit); }\n\
function columns() {\n\
\x20 const before = fit;\n\
\x20 fit = Math.floor(lines.clientWidth / (opt.size * .602));\n\
\x20 document.body.classList.toggle('flow', fit < 78);\n\
\x20 if (fit !== before) lines.querySelectorAll('[data-n]').forEach(narrow);\n\
}\n\
function trim() { while (lines.childElementCount > opt.keep) lines.firstElementChild.remove(); }\n\
function toEnd() { stuck = true; unseen = 0; showMore(); moving++; log.scrollTop = log.scrollHeight; requestAnimationFrame(() => { log.scrollTop = log.scrollHeight; moving--; }); }\n\
function showMore() { $('more').hidden = stuck; $('more').textContent = unseen ? unseen + (unseen === 1 ? ' new line' : ' new lines') + ' \\u2193' : 'To the end \\u2193'; }\n\
log.addEventListener('scroll', () => {\n\
\x20 if (moving) return;\n\
\x20 const atEnd = log.scrollHeight - log.scrollTop - log.clientHeight < 24;\n\
\x20 if (atEnd !== stuck) { stuck = atEnd; if (atEnd) unseen = 0; showMore(); }\n\
}, { passive: true });\n\
new ResizeObserver(() => { columns(); if (stuck) toEnd(); }).observe(log);\n\
$('more').onclick = () => { toEnd(); type.focus(); };\n\
let world = 'MOO';\n\
function title() { document.title = (missed ? '(' + missed + ') ' : '') + world; }\n\
function seen() { if (missed) { missed = 0; title(); } const m = mark; mark = null; if (m) setTimeout(() => m.remove(), 8000); }\n\
addEventListener('focus', seen); document.addEventListener('visibilitychange', () => { if (VISIBLE()) seen(); else if (due) setTimeout(flush, 60); });\n\
let sound = null, rang = 0;\n\
function ring() {\n\
\x20 if (!opt.bell || Date.now() - rang < 3000) return;\n\
\x20 rang = Date.now();\n\
\x20 try {\n\
\x20   sound = sound || new AudioContext();\n\
\x20   const o = sound.createOscillator(), g = sound.createGain(), t = sound.currentTime;\n\
\x20   o.frequency.value = 660; g.gain.setValueAtTime(.08, t); g.gain.exponentialRampToValueAtTime(.0001, t + .35);\n\
\x20   o.connect(g).connect(sound.destination); o.start(t); o.stop(t + .36);\n\
\x20 } catch (e) {}\n\
}\n\
function asText() { return [...lines.children].filter(d => !d.classList.contains('mark')).map(d => (d.classList.contains('own') ? '> ' : '') + d.textContent).join('\\n') + '\\n'; }\n\
async function copyText(text) {\n\
\x20 try { await navigator.clipboard.writeText(text); return true; } catch (e) {}\n\
\x20 const a = document.createElement('textarea'); a.value = text; ($('set').open ? $('set') : document.body).append(a); a.select();\n\
\x20 let ok = false; try { ok = document.execCommand('copy'); } catch (e) {}\n\
\x20 a.remove(); return ok;\n\
}\n\
$('copy').onclick = async () => tell(await copyText(asText()) ? 'The log is copied.' : 'It could not be copied.');\n\
$('file').onclick = () => {\n\
\x20 const a = document.createElement('a'), url = URL.createObjectURL(new Blob([asText()], { type: 'text/plain' }));\n\
\x20 a.href = url; a.download = 'moo-' + new Date().toISOString().slice(0, 16).replace(/:/g, '') + '.txt'; a.click();\n\
\x20 setTimeout(() => URL.revokeObjectURL(url), 1000);\n\
};\n\
$('clear').onclick = () => { lines.textContent = ''; };\n\
\n\
// ---- search in the log: the latest line first\n\
let hits = [], hit = 0;\n\
function unmark() { for (const d of lines.querySelectorAll('.hit')) d.classList.remove('hit'); }\n\
function search() {\n\
\x20 const text = $('sought').value.trim().toLowerCase();\n\
\x20 hits = text ? [...lines.children].filter(d => d.textContent.toLowerCase().includes(text)) : [];\n\
\x20 hit = 0; step(-1);\n\
}\n\
function step(by) {\n\
\x20 const before = hits[hit];\n\
\x20 hits = hits.filter(d => d.isConnected); unmark();\n\
\x20 if (!hits.length) { $('found').textContent = $('sought').value.trim() ? 'nothing' : ''; return; }\n\
\x20 hit = (Math.max(0, hits.indexOf(before)) + by + hits.length) % hits.length;\n\
\x20 const d = hits[hit], says = document.createElement('span');\n\
\x20 d.classList.add('hit'); d.scrollIntoView({ block: 'center' });\n\
\x20 says.className = 'sr'; says.textContent = ': ' + d.textContent;\n\
\x20 $('found').replaceChildren(hit + 1 + ' of ' + hits.length, says);\n\
}\n\
function finder(show) {\n\
\x20 $('find').hidden = !show; $('seek').setAttribute('aria-expanded', show);\n\
\x20 if (show) { $('sought').focus(); $('sought').select(); search(); } else { unmark(); type.focus(); }\n\
}\n\
$('seek').onclick = () => finder($('find').hidden);\n\
$('shut-find').onclick = () => finder(false);\n\
$('o-seek').onclick = () => { $('set').addEventListener('close', () => finder(true), { once: true }); $('set').close(); };\n\
$('sought').addEventListener('input', search);\n\
$('later').onclick = () => step(1);\n\
$('find').onsubmit = e => { e.preventDefault(); step(-1); };\n\
$('find').addEventListener('keydown', e => {\n\
\x20 if (e.key === 'Escape') { e.preventDefault(); e.stopPropagation(); finder(false); }\n\
\x20 if (e.key === 'Enter' && e.shiftKey && e.target === $('sought')) { e.preventDefault(); step(1); }\n\
});\n\
\n\
// ---- the connection\n\
let ws = null, tries = 0, timer = 0, left = 0, closing = false, half = '', decoder = null;\n\
const BAD = /[\\x00-\\x08\\x0b-\\x1f\\x7f]/g, COLOUR = /\\x1b\\[[0-9;]*[A-Za-z]/g;\n\
function state(kind, text) {\n\
\x20 $('dot').className = kind; $('said-state').textContent = text; $('count').textContent = '';\n\
\x20 $('again').hidden = kind === 'up'; $('send').disabled = kind !== 'up';\n\
\x20 document.body.classList.toggle('off', kind !== 'up');\n\
\x20 if (kind === 'up') tell('');\n\
}\n\
function connect() {\n\
\x20 clearInterval(timer);\n\
\x20 if (ws) { ws.onopen = ws.onclose = ws.onmessage = null; ws.close(); }\n\
\x20 const url = new URL('ws', location.href); url.protocol = location.protocol === 'https:' ? 'wss:' : 'ws:';\n\
\x20 state('wait', 'connecting ..');\n\
\x20 half = ''; decoder = new TextDecoder(); isIn = false; captures.length = 0; edits = null; unwatch();\n\
\x20 let opened = false;\n\
\x20 try { ws = new WebSocket(url); } catch (e) { return lost('bad'); }\n\
\x20 const mine = ws;\n\
\x20 ws.binaryType = 'arraybuffer';\n\
\x20 ws.onopen = () => { opened = true; if (tries) put('good', 'Connected again.'); tries = 0; state('up', 'connected'); sign(true); };\n\
\x20 ws.onmessage = e => { if (ws === mine) receive(typeof e.data === 'string' ? e.data : decoder.decode(e.data, { stream: true })); };\n\
\x20 ws.onclose = e => {\n\
\x20   if (ws !== mine) return;\n\
\x20   ws = null; if (half) { put('said', half); half = ''; }\n\
\x20   sign(false);\n\
\x20   if (opened && (e.code === 1000 || closing)) { closing = false; state('down', 'not connected'); put('', 'The connection has ended.'); $('again').focus(); }\n\
\x20   else lost(opened ? e.reason || 'The connection was lost.' : tries ? '' : 'The world cannot be reached.');\n\
\x20 };\n\
}\n\
function lost(why) {\n\
\x20 if (why) put('bad', why);\n\
\x20 if (!opt.back) return state('down', 'not connected');\n\
\x20 left = Math.min(30, 2 ** Math.min(tries, 5)) + Math.floor(Math.random() * 2); tries++;\n\
\x20 const tick = () => { if (left <= 0) return connect(); $('count').textContent = 'in ' + left + ' s'; left--; };\n\
\x20 state('wait', 'next try');\n\
\x20 clearInterval(timer); tick(); timer = setInterval(tick, 1000);\n\
}\n\
$('again').onclick = () => { tries = tries || 1; connect(); type.focus(); };\n\
addEventListener('online', () => { if (!ws && opt.back && tries) connect(); else knock(); });\n\
// After a sleep the other end may be gone. Sending shows that, and an empty message is nothing to the world.\n\
function knock() { if (ws && ws.readyState === 1) ws.send(''); }\n\
let looked = Date.now();\n\
setInterval(() => { const now = Date.now(); if (now - looked > 90000) knock(); looked = now; }, 10000);\n\
addEventListener('beforeunload', e => { if (ws && isIn) e.preventDefault(); });\n\
function receive(text) {\n\
\x20 const parts = (half + text).split('\\n');\n\
\x20 half = parts.pop();\n\
\x20 if (half.length > 200000) { parts.push(half); half = ''; }\n\
\x20 for (const p of parts) said(p.replace(/\\r$/, ''));\n\
}\n\
function said(line) {\n\
\x20 if (line.includes('\\x07')) ring();\n\
\x20 line = line.replace(COLOUR, '').replace(BAD, '');\n\
\x20 if (captured(line)) return;\n\
\x20 const named = /^\\s+((?:The )?[A-Z][\\w' -]{2,40})\\s*$/.exec(line);\n\
\x20 if (world === 'MOO' && named && !isIn) { world = named[1].trim(); $('name').textContent = world; title(); }\n\
\x20 if (/^\\*\\*\\* (Connected|Created|Redirecting old connection to this port) \\*\\*\\*$/.test(line)) { isIn = true; sign(false); }\n\
\x20 closing = line === '*** Disconnected ***';\n\
\x20 if (local(line)) return;\n\
\x20 put('said', line);\n\
}\n\
const PLAIN = { '\\u2018': \"'\", '\\u2019': \"'\", '\\u201a': \"'\", '\\u201c': '\"', '\\u201d': '\"', '\\u201e': '\"', '\\u00ab': '\"', '\\u00bb': '\"', '\\u2013': '-', '\\u2014': '--', '\\u2212': '-', '\\u2026': '...', '\\u00a0': ' ', '\\u00df': 'ss', '\\u00e6': 'ae', '\\u00c6': 'Ae', '\\u00f8': 'o', '\\u00d8': 'O', '\\u0142': 'l', '\\u20ac': 'EUR', '\\u2022': '*' };\n\
// The world knows ASCII alone: what a phone's keyboard makes of quotes and dashes is undone, an accent is dropped.\n\
function plain(text) {\n\
\x20 return text.replace(/[^\\x00-\\x7f]/gu, c => PLAIN[c] ?? (c.normalize('NFKD').replace(/[^\\x00-\\x7f]/g, '') || '?')).replace(/[\\x00-\\x08\\x0b-\\x1f\\x7f]/g, '');\n\
}\n\
function send(line) {\n\
\x20 if (!ws || ws.readyState !== 1) { tell('Not connected: nothing was sent.', true); return false; }\n\
\x20 // In pieces: a message that is too long would end the connection.\n\
\x20 const text = line + '\\r\\n';\n\
\x20 for (let at = 0; at < text.length; at += 16384) ws.send(text.slice(at, at + 16384));\n\
\x20 return true;\n\
}\n\
// A password is shown as dots, and not kept: what follows these words, and before a login what follows any word and a name.\n\
const SECRET = /^(\\s*(?:co|con|connect|cr|create|@make-player)\\s+\\S+\\s+|\\s*(?:@[a-z]*pass?(?:w[a-z]*)?|passw[a-z]*)\\s+)(\\S.*)$/im, LOGIN = /^(\\s*@?[a-z]+\\s+\\S+\\s+)(\\S.*)$/im;\n\
const isNew = line => secret(line) && (isIn ? /^\\s*@/ : /^\\s*(?!co|\\s)/i).test(line);\n\
const secret = text => SECRET.test(text) || (!isIn && LOGIN.test(text));\n\
const veil = line => (isIn ? [SECRET] : [SECRET, LOGIN]).reduce((l, p) => l.replace(p, (_, head, rest) => head + '\\u2022'.repeat(8)), line);\n\
function typed(text) {\n\
\x20 const all = text.replace(/\\r\\n?/g, '\\n').split('\\n');\n\
\x20 if (all.length > 1 && all[all.length - 1] === '') all.pop();\n\
\x20 // A new password isn't replaced: with '?' for each Cyrillic letter it would be easy to guess.\n\
\x20 if (all.some(raw => isNew(raw) && plain(raw) !== raw)) { tell('A name and a password have plain ASCII characters alone: nothing was sent.', true); return false; }\n\
\x20 let lost = 0, long = 0;\n\
\x20 for (const raw of all) {\n\
\x20   const line = plain(raw);\n\
\x20   if (line !== raw) lost++;\n\
\x20   if (line.length > 8000) long++;\n\
\x20   if (!send(line)) return false;\n\
\x20   if (opt.echo) put('own', veil(line));\n\
\x20 }\n\
\x20 if (long) tell('A line of more than 8,000 letters: the world may drop its end.', true);\n\
\x20 else if (lost) tell('The world knows plain ASCII alone: other letters were replaced.');\n\
\x20 else if (all.length > 1) tell(all.length + ' lines were sent, one by one.');\n\
\x20 else tell('');\n\
\x20 return true;\n\
}\n\
let telling = 0;\n\
function tell(text, bad) {\n\
\x20 clearTimeout(telling);\n\
\x20 $('told').textContent = text || ''; $('told').className = bad ? 'bad' : '';\n\
\x20 $('keys').hidden = touch || !!text;\n\
\x20 if (text) telling = setTimeout(tell, 8000);\n\
}\n\
\n\
// ---- the line of input\n\
let past = [], at = -1, draft = '';\n\
try { past = JSON.parse(sessionStorage.getItem(KEY) || '[]'); } catch (e) {}\n\
function remember(line) {\n\
\x20 if (!line.trim() || secret(line)) return;\n\
\x20 past = past.filter(p => p !== line); past.push(line); past = past.slice(-300);\n\
\x20 try { sessionStorage.setItem(KEY, JSON.stringify(past)); } catch (e) {}\n\
}\n\
function grow() { type.style.height = 'auto'; type.style.height = type.scrollHeight + 2 + 'px'; }\n\
function submit() {\n\
\x20 const text = type.value;\n\
\x20 if (!typed(text)) return;\n\
\x20 remember(text); at = -1; draft = ''; type.value = ''; grow(); toEnd();\n\
}\n\
function walk(by) {\n\
\x20 if (at < 0) draft = type.value;\n\
\x20 let i = at < 0 ? past.length : at;\n\
\x20 do { i += by; } while (i >= 0 && i < past.length && !past[i].startsWith(draft));\n\
\x20 if (i < 0) return;\n\
\x20 at = i >= past.length ? -1 : i;\n\
\x20 type.value = at < 0 ? draft : past[at];\n\
\x20 grow(); type.setSelectionRange(type.value.length, type.value.length);\n\
}\n\
$('row').onsubmit = e => { e.preventDefault(); submit(); type.focus(); };\n\
type.addEventListener('input', () => { at = -1; grow(); const n = type.value.split('\\n').length; tell(n > 1 ? n + ' lines: Enter sends them one by one.' : secret(type.value) ? 'A password: it is not shown in the log and not remembered.' : ''); });\n\
type.addEventListener('keydown', e => {\n\
\x20 if (e.isComposing) return;\n\
\x20 const one = !type.value.includes('\\n'), from = type.selectionStart;\n\
\x20 if (e.key === 'Enter' && !e.shiftKey && !e.altKey) { e.preventDefault(); submit(); }\n\
\x20 else if (e.key === 'ArrowUp' && !e.shiftKey && (one || !type.value.slice(0, from).includes('\\n'))) { e.preventDefault(); walk(-1); }\n\
\x20 else if (e.key === 'ArrowDown' && !e.shiftKey && (one || !type.value.slice(from).includes('\\n'))) { e.preventDefault(); walk(1); }\n\
\x20 else if (e.key === 'PageUp' || e.key === 'PageDown') { e.preventDefault(); log.scrollBy({ top: (e.key === 'PageUp' ? -.85 : .85) * log.clientHeight }); }\n\
\x20 else if (e.ctrlKey && e.key === 'Home') { e.preventDefault(); log.scrollTop = 0; }\n\
\x20 else if (e.ctrlKey && e.key === 'End') { e.preventDefault(); toEnd(); }\n\
\x20 else if (e.key === 'Escape') { if (type.value) { draft = ''; at = -1; type.value = ''; grow(); tell(''); } else toEnd(); }\n\
});\n\
// Typing anywhere goes into the line of input.\n\
addEventListener('keydown', e => {\n\
\x20 if (e.key === 'F1') { e.preventDefault(); $('set').open ? $('set').close() : $('options').click(); return; }\n\
\x20 if (e.ctrlKey && e.shiftKey && e.key.toLowerCase() === 'f') { e.preventDefault(); finder(true); return; }\n\
\x20 if (e.altKey && e.key.toLowerCase() === 'e') { e.preventDefault(); panel($('panel').hidden); return; }\n\
\x20 if ($('set').open || e.target === type || /^(INPUT|TEXTAREA|SELECT)$/.test(e.target.tagName)) return;\n\
\x20 if (e.key === 'Escape') type.focus();\n\
\x20 if (e.key.length === 1 && !e.ctrlKey && !e.metaKey && !e.altKey && !(e.key === ' ' && e.target !== document.body)) type.focus();\n\
});\n\
log.addEventListener('click', () => { if (!touch && getSelection().isCollapsed) type.focus({ preventScroll: true }); });\n\
\n\
// ---- coming in\n\
function sign(show) {\n\
\x20 const had = $('sign').contains(document.activeElement);\n\
\x20 $('sign').hidden = !show || isIn; $('pad').hidden = !opt.pad || !isIn;\n\
\x20 if (!show || isIn) { $('pass').value = ''; if (had || document.activeElement === document.body) type.focus(); return; }\n\
\x20 $('who').value = opt.who || '';\n\
}\n\
$('sign').onsubmit = e => {\n\
\x20 e.preventDefault();\n\
\x20 const how = e.submitter ? e.submitter.value : 'connect', who = $('who').value.trim(), pass = $('pass').value;\n\
\x20 if (how === 'guest') { typed('connect guest'); type.focus(); return; }\n\
\x20 if (!who) { tell('A name is wanted.', true); $('who').focus(); return; }\n\
\x20 if (/\\s/.test(who)) { tell('A name is one word.', true); $('who').focus(); return; }\n\
\x20 if (typed(how + ' ' + who + (pass ? ' ' + pass : ''))) { opt.who = plain(who); keepSettings(); $('pass').value = ''; }\n\
\x20 $('pass').focus();\n\
};\n\
\n\
// ---- buttons\n\
for (const [face, line, name] of [['\\u2191 n', 'north', 'north'], ['\\u2193 s', 'south', 'south'], ['\\u2190 w', 'west', 'west'], ['\\u2192 e', 'east', 'east'], ['up', 'up', 'up'], ['down', 'down', 'down'], ['look', 'look', 'look'], ['inv', 'inventory', 'inventory'], ['who', '@who', 'who is here'], ['help', 'help', 'help']]) {\n\
\x20 const b = document.createElement('button');\n\
\x20 b.type = 'button'; b.textContent = face; b.setAttribute('aria-label', name); b.onclick = () => { typed(line); toEnd(); };\n\
\x20 $('pad').append(b);\n\
}\n\
$('options').onclick = () => { $('set').showModal(); };\n\
$('set').addEventListener('click', e => { if (e.target === $('set')) $('set').close(); });\n\
$('set').addEventListener('close', () => type.focus());\n\
\n\
// ---- the editor: `@list` between a prefix and a suffix is read, `.program` writes; `#$# edit` opens it\n\
const captures = [];\n\
let upload = '', editing = null;\n\
function uploadBy(command) { upload = command; $('code').classList.toggle('text', command !== '' && !command.startsWith('.program ')); }\n\
function panel(show) {\n\
\x20 $('panel').hidden = !show; document.body.classList.toggle('editing', show); $('edit').setAttribute('aria-expanded', show);\n\
\x20 (show ? ($('verb').value ? $('code') : $('verb')) : type).focus(); if (stuck) toEnd();\n\
}\n\
$('edit').onclick = () => panel($('panel').hidden);\n\
$('shut').onclick = () => panel(false);\n\
$('panel').addEventListener('keydown', e => {\n\
\x20 if (e.key === 'Escape') { e.preventDefault(); panel(false); }\n\
\x20 if ((e.ctrlKey || e.metaKey) && e.key.toLowerCase() === 's') { e.preventDefault(); $('save').click(); }\n\
});\n\
function tellPanel(kind, text) { $('said').className = kind; $('said').textContent = text; }\n\
// What lines answer, between marks of this page's own.\n\
function ask(commands, done) {\n\
\x20 const id = Math.random().toString(36).slice(2, 10), from = '<<<' + id, to = '>>>' + id;\n\
\x20 const c = { from, to, on: false, got: [], done, timer: 0 };\n\
\x20 c.timer = setTimeout(() => { const i = captures.indexOf(c); if (i >= 0) { captures.splice(i, 1); done(null); } }, 8000);\n\
\x20 captures.push(c);\n\
\x20 if (!['PREFIX ' + from, 'SUFFIX ' + to, ...commands, 'PREFIX', 'SUFFIX'].every(send)) { clearTimeout(c.timer); captures.pop(); done(null); }\n\
}\n\
function captured(line) {\n\
\x20 const c = captures[0];\n\
\x20 if (!c) return false;\n\
\x20 if (line === c.from) { c.on = true; return true; }\n\
\x20 if (line === c.to) { clearTimeout(c.timer); captures.shift(); c.done(c.got); return true; }\n\
\x20 if (c.on) c.got.push(line);\n\
\x20 return c.on;\n\
}\n\
const NO_VERB = 'Name an object, a colon and a verb, such as lamp:rub. For a text type  @local on  and then  @edit lamp.';\n\
const NAME = /^\\s*([^:\\s][^:]*):(\\S+)\\s*$/;\n\
$('which').onsubmit = e => {\n\
\x20 e.preventDefault();\n\
\x20 if (!NAME.test($('verb').value)) return tellPanel('bad', NO_VERB);\n\
\x20 if ($('code').value.trim() && $('code').value !== editing && !confirm('Drop what is in the editor?')) return;\n\
\x20 tellPanel('', 'reading ..'); uploadBy('');\n\
\x20 ask(['@list ' + plain($('verb').value.trim())], got => {\n\
\x20   if (!got) return tellPanel('bad', 'No answer.');\n\
\x20   const head = /^(#\\d+):\"([^\"\\s*]+)/.exec(got[0] || ''), code = [];\n\
\x20   let whole = true;\n\
\x20   for (const g of got.slice(1)) { const m = /^\\s*(\\d+): ?(.*)$/.exec(g); if (m) code.push(m[2]); whole = !code.length || (m !== null && +m[1] === code.length); }\n\
\x20   if (!head) return tellPanel('bad', got.join('\\n') || 'It is not listed.');\n\
\x20   if (!whole) return tellPanel('bad', got.filter(g => !/^\\s*\\d+: /.test(g)).slice(1).join('\\n') + '\\nThe list is not whole, so it is not in the editor.');\n\
\x20   $('verb').value = head[1] + ':' + head[2]; $('code').value = editing = code.join('\\n');\n\
\x20   tellPanel('', got[0]); $('code').focus(); $('code').setSelectionRange(0, 0);\n\
\x20 });\n\
};\n\
$('save').onclick = () => {\n\
\x20 const name = NAME.exec($('verb').value), text = plain($('code').value.replace(/\\t/g, '  ')), body = text.split('\\n');\n\
\x20 if (body[body.length - 1] === '') body.pop();\n\
\x20 const program = upload.startsWith('.program ') ? upload.slice(9).trim() : '';\n\
\x20 if (upload && !program) {\n\
\x20   // A line of dots gets one more, which the world takes away.\n\
\x20   for (const l of [upload, ...body.map(l => l === '.' || l.startsWith('..') ? '.' + l : l), '.']) if (!send(l)) return tellPanel('bad', 'Not connected.');\n\
\x20   editing = $('code').value; return tellPanel('', 'sent; the answer is in the log.');\n\
\x20 }\n\
\x20 // Ctrl+S that is held comes again before the answer: a second `.program` would be a line of the first.\n\
\x20 if (watching) return;\n\
\x20 if (!program && !name) return tellPanel('bad', NO_VERB);\n\
\x20 if (body.some(l => l.trim() === '.')) return tellPanel('bad', 'A line that is a dot alone would end the program.');\n\
\x20 tellPanel('', 'sending ..');\n\
\x20 const from = $('code').value;\n\
\x20 watch(body, program || plain($('verb').value.trim()), (ok, answer) => {\n\
\x20   tellPanel(ok ? 'good' : 'bad', answer);\n\
\x20   if (ok) editing = from;\n\
\x20   const m = /^Line (\\d+):/m.exec(answer);\n\
\x20   if (!ok && m) { const n = +m[1] - 1, all = from.split('\\n'), start = all.slice(0, n).join('\\n').length + (n ? 1 : 0); $('code').focus(); $('code').setSelectionRange(start, start + (all[n] || '').length); }\n\
\x20 });\n\
};\n\
let watching = null;\n\
function unwatch() { const w = watching; watching = null; if (w) { clearTimeout(w.timer); w.done(false, 'No answer.'); } }\n\
function watch(body, name, done) {\n\
\x20 const wait = ms => setTimeout(unwatch, ms);\n\
\x20 watching = { body, done, got: [], wait, timer: wait(8000) };\n\
\x20 if (!send('.program ' + name)) { clearTimeout(watching.timer); watching = null; done(false, 'Not connected.'); }\n\
}\n\
const ENDS = /^(Verb (not )?programmed\\.|No such verb\\.|Permission denied\\.|You are not a programmer\\.|Usage: \\.program .*)$/;\n\
let edits = null;\n\
function local(line) {\n\
\x20 if (watching) {\n\
\x20   if (/^Now programming /.test(line) || /^Line \\d+: /.test(line) || ENDS.test(line)) {\n\
\x20     watching.got.push(line);\n\
\x20     // Only now: where the verb is refused, its lines would be read as commands.\n\
\x20     if (/^Now programming /.test(line)) { clearTimeout(watching.timer); watching.timer = watching.wait(60000); for (const l of [...watching.body, '.']) send(l); }\n\
\x20     if (ENDS.test(line)) { const w = watching; watching = null; clearTimeout(w.timer); w.done(line === 'Verb programmed.', w.got.join('\\n')); }\n\
\x20     return true;\n\
\x20   }\n\
\x20 }\n\
\x20 if (edits) {\n\
\x20   if (line !== '.' && edits.got.length < 20000) { edits.got.push(line.replace(/^\\.(?=\\.)/, '')); return true; }\n\
\x20   const e = edits; edits = null;\n\
\x20   if (line !== '.') { put('bad', e.name + ': a text without an end is not in the editor.'); return true; }\n\
\x20   if ($('code').value.trim() && $('code').value !== editing && !confirm('Drop what is in the editor, for ' + e.name + '?')) { tellPanel('bad', e.name + ' was not opened.'); return true; }\n\
\x20   uploadBy(e.upload); $('verb').value = e.name; $('code').value = editing = e.got.join('\\n'); tellPanel('', 'Save sends: ' + e.upload); panel(true);\n\
\x20   return true;\n\
\x20 }\n\
\x20 // The last mark counts: what is before it is a name, which some player chose.\n\
\x20 const m = /^#\\$# edit name: (.*) upload: (.*)$/.exec(line);\n\
\x20 if (m) { edits = { name: m[1], upload: m[2], got: [] }; return true; }\n\
\x20 return /^#\\$#/.test(line);\n\
}\n\
$('verb').addEventListener('input', () => uploadBy(''));\n\
$('code').addEventListener('keydown', e => {\n\
\x20 if (e.key !== 'Enter' || e.shiftKey || e.ctrlKey || e.altKey || e.isComposing) return;\n\
\x20 const c = e.target, before = c.value.slice(0, c.selectionStart), line = before.slice(before.lastIndexOf('\\n') + 1), pad = /^\\s*/.exec(line)[0] + (/^\\s*(if|else|elseif|for|while|fork|try|except|finally)\\b(?!.*;\\s*$)/.test(line) ? '  ' : '');\n\
\x20 if (!pad) return;\n\
\x20 e.preventDefault();\n\
\x20 if (!document.execCommand('insertText', false, '\\n' + pad)) c.setRangeText('\\n' + pad, c.selectionStart, c.selectionEnd, 'end');\n\
});\n\
\n\
applySettings(); grow(); $('name').textContent = world = location.hostname || 'MOO'; world = 'MOO'; connect();\n\
if (!touch) type.focus();\n\
</script>\n\
</body>\n\
</html>\n\
";
