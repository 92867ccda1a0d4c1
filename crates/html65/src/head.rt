//! The head of a page: its styles, the name of the listing, and how many bytes of each kind there are.

use crate::kind::KINDS;
use crate::markup::{Address, Put, Text, put};
use crate::request::Showing;
use crate::survey::Survey;

/// What stands before the title. The page may load nothing, and no script runs in it.
const BEGIN: &str = "<!DOCTYPE html>\n<html lang=\"en\">\n<head>\n<meta charset=\"utf-8\">\n\
    <meta name=\"viewport\" content=\"width=device-width\">\n\
    <meta http-equiv=\"Content-Security-Policy\" content=\"default-src 'none'; img-src data:; style-src 'unsafe-inline'\">\n\
    <title>";

/// What stands after the title: the styles. What the page adds to the listing is not selected with it.
const STYLES: &str = "</title>\n<style>\n\
    :root{color-scheme:light dark;--ink:#222;--paper:#fff;--pale:#777;--line:#ddd;--link:#1a4f8b;--from:#a05a00;--mark:#fff3b0;\
    --code:#4878a8;--text:#7ba05b;--bytes:#c9a24b;--words:#b06a3b;--addresses:#9b4f96;--filler:#d8d8d8}\n\
    @media (prefers-color-scheme:dark){:root{--ink:#ddd;--paper:#1b1b1d;--pale:#8c8c8c;--line:#444;--link:#8ab4f0;--from:#e0a050;--mark:#5a4a10;\
    --code:#5b8fc4;--text:#86b062;--bytes:#d0aa55;--words:#c88050;--addresses:#b56cb0;--filler:#4a4a4a}}\n\
    body{font:14px/1.35 system-ui,sans-serif;margin:0;color:var(--ink);background:var(--paper)}\n\
    header{padding:8px 16px;border-bottom:1px solid var(--line)}h1{display:inline;font-size:16px;margin:0 12px 0 0}\n\
    header span{border-left:10px solid;padding-left:4px;margin-left:10px;white-space:nowrap}\n\
    main{display:flex;align-items:flex-start}\n\
    nav{flex:0 0 340px;box-sizing:border-box;position:sticky;top:0;max-height:100vh;overflow:auto;padding:10px;font-size:12px;\
    border-right:1px solid var(--line)}\n\
    nav svg{display:block;max-width:100%;shape-rendering:crispEdges;margin-bottom:8px}svg a:hover,svg a:focus{opacity:.6}\n\
    table{border-collapse:collapse;width:100%}col[span]{width:1px}col+col{width:99%}td{padding:0 6px 0 0;vertical-align:top;font-variant-numeric:tabular-nums}summary{font-weight:600;padding:4px 0;cursor:pointer}\n\
    a{color:var(--link);text-decoration:none}a:hover,a:focus{text-decoration:underline}em{color:var(--from)}\n\
    pre{flex:1;min-width:0;overflow-x:auto;font:13px/1.35 ui-monospace,monospace;margin:0;padding:10px 16px}\n\
    pre i{font-style:normal;tab-size:20;color:var(--pale);-webkit-user-select:none;user-select:none}pre i a{color:var(--from)}\n\
    .r{display:block;white-space:pre-wrap;margin-left:20ch;max-width:100ch}.v td{padding:0 0 2px 6em;color:var(--pale)}p{margin:0 0 8px}\n\
    pre b{font-weight:600}pre b[class]{font-weight:inherit}.f{display:inline-block;vertical-align:top}\
    @supports selector(:has(a)){.f{max-height:4em;overflow:hidden}i:has(:checked)+.f,.f:has(:target){max-height:none}}\n\
    .p{display:block;content-visibility:auto;contain-intrinsic-size:auto 9000px}\
    details[open]{content-visibility:auto;contain-intrinsic-size:auto 2000px}\n\
    code{white-space:pre-line;color:var(--pale);-webkit-user-select:all;user-select:all}\n\
    pre [id]{scroll-margin-top:6em}.t{color:var(--text)}.c{color:var(--pale)}:target{background:var(--mark)}details:target{background:none}\n\
    .k{max-width:0;overflow:hidden;text-overflow:ellipsis;white-space:nowrap;color:var(--pale)}\
    .u{display:none}:target+.u{display:table-row;background:var(--mark)}.u code{display:block}\n\
    label{cursor:pointer}label input{margin:0 3px 0 0;vertical-align:middle}\n\
    label b{display:none;font-weight:inherit;white-space:normal}label :checked~b{display:block}\n\
    img{image-rendering:pixelated;border:1px solid var(--line);margin:2px;vertical-align:top}\n\
    .code{stroke:var(--code);border-color:var(--code)}.text{stroke:var(--text);border-color:var(--text)}\
    .bytes{stroke:var(--bytes);border-color:var(--bytes)}.words{stroke:var(--words);border-color:var(--words)}\
    .addresses{stroke:var(--addresses);border-color:var(--addresses)}.filler{stroke:var(--filler);border-color:var(--filler)}\n\
    @media (max-width:700px){main{display:block}nav{position:static;max-height:50vh;border-right:0;border-bottom:1px solid var(--line)}}\n\
    @media print{main{display:block}nav{position:static;max-height:none;border:0}pre{overflow:visible;white-space:pre-wrap}\
    .u{display:table-row}.k{max-width:none;white-space:normal}.u code{display:none}.f{display:inline}.r{break-after:avoid}label b{display:block}label input{display:none}}\n\
    </style>\n</head>\n<body>\n<header><h1>";

/// Appends what stands before the map: the name of the listing, its addresses, and how many bytes of each kind there
/// are.
pub fn put_head(out: &mut Text, showing: &Showing, survey: &Survey<'_, '_>) {
    let name = showing.names.listing.as_bytes();
    let start = usize::from(survey.start);
    let count = survey.bytes.len();
    let last = start.saturating_add(count).saturating_sub(1);
    put!(out; BEGIN, name, STYLES, name, ("</h1> $", Address(start)), (" to $", Address(last)), (", ", count), " bytes");
    let mut counts: [usize; 6] = [0; 6];
    for run in &survey.runs {
        let count = &mut counts[run.kind as usize];
        *count = count.saturating_add(run.len());
    }
    for kind in 0..6 {
        if 0 < counts[kind] {
            put!(out; " <span class=\"", KINDS[kind], "\">", KINDS[kind], (" ", counts[kind]), "</span>");
        }
    }
    put!(out; "</header>\n<main>\n<nav>\n");
}
