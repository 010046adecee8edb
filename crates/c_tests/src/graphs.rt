// The graph of a function with every form of statement.
use c_file::{CFile, read_file};
use c_lexer::lex;
use c_terms::first_leaf;
use cfg_build::{Graph, NodeKind};
use std::alloc::{AllocError, Global};
use std::test::Fail;

fn read(alloc: Global, text: &[u8]) -> Option<CFile> {
    let lexed = lex(alloc, text).ok()?;
    read_file(alloc, lexed).ok()
}

const EACH_FORM: &[u8] = b"void k(void) { if (a) { f(); goto out; } while (b) break; \
    do { if (c) continue; return; } while (d); \
    switch (e) { case 1: break; case 2 ... 3: ; { default: ; } switch (g) { case 4: ; } } \
    for (int i = 0; i; i++) continue; list_for_each(p) f(p); out: out: ; }";

/// The nodes of that function: kind, `!` at a bail, successors, what is past it, and the entries of branches.
const NODES: [&str; 41] = [
    "f 1/40/1", // void k(void)
    "{ 2/40/2", // {
    "h 3,7/7/3", // if (a)
    "{! 4/7/4", // {
    "s 5/5/-", // f();
    "s 36/6/-", // goto out;
    "} 7/7/-", // }
    "h 8,9/9/8", // while (b)
    "s 9/7/-", // break;
    "h 10/16/10,15", // do
    "{ 11/15/11", // {
    "h 12,13/13/12", // if (c)
    "s 15/13/-", // continue;
    "s 40/14/-", // return;
    "} 15/15/-", // }
    "t 9,16/16/-", // while (d);
    "h 18,20,23/32/17", // switch (e)
    "{ 18/32/18", // {
    "s 19/19/-", // case 1:
    "s 32/20/-", // break;
    "s 21/21/-", // case 2 ... 3:
    "s 22/22/-", // ;
    "{ 23/26/23", // {
    "s 24/24/-", // default:
    "s 25/25/-", // ;
    "} 26/26/-", // }
    "h 28,31/31/27", // switch (g)
    "{ 28/31/28", // {
    "s 29/29/-", // case 4:
    "s 30/30/-", // ;
    "} 31/31/-", // }
    "} 32/32/-", // }
    "h 33,34/34/33", // for (int i = 0; i; i++)
    "s 32/32/-", // continue;
    "h 35,36/36/35", // list_for_each(p)
    "s 34/34/-", // f(p);
    "s 37/37/-", // out:
    "s 38/38/-", // out:
    "s 39/39/-", // ;
    "} 40/40/-", // }
    "e 40/-/-", // the exit
];

fn kind_of(kind: NodeKind) -> &'static str {
    match kind {
        NodeKind::FunHead => "f",
        NodeKind::OpenBrace => "{",
        NodeKind::CloseBrace => "}",
        NodeKind::Simple => "s",
        NodeKind::Head => "h",
        NodeKind::DoTail => "t",
        NodeKind::ExitNode => "e",
    }
}

/// Returns the numbers, separated by commas, or `-` if there are none.
fn joined(alloc: Global, numbers: &[u32]) -> Result<String, AllocError> {
    let mut text = format!(in alloc; "-")?;
    for (i, number) in numbers.iter().enumerate() {
        text = if i == 0 {
            format!(in alloc; "{number}")?
        } else {
            format!(in alloc; "{text},{number}")?
        };
    }
    Ok(text)
}

fn node_row(alloc: Global, graph: &Graph, n: u32) -> Result<String, AllocError> {
    if n >= graph.count() {
        return Ok(String::new(alloc));
    }
    let label = graph.label(n);
    let bail = if label.bail { "!" } else { "" };
    let succ = joined(alloc, graph.succ(n))?;
    let mut past = Vec::new(alloc);
    if let Some(node) = graph.past(n) {
        past.push(node)?;
    }
    let past = joined(alloc, past.as_slice())?;
    let mut down = Vec::new(alloc);
    for branch in 0..3usize {
        if let Some(node) = graph.down(n, branch) {
            down.push(node)?;
        }
    }
    let down = joined(alloc, down.as_slice())?;
    let kind = kind_of(label.kind);
    format!(in alloc; "{kind}{bail} {succ}/{past}/{down}")
}

/// Whether the node has the id of the `{` of its block if it is a brace, and no such id otherwise.
fn has_its_brace(graph: &Graph, n: u32) -> bool {
    if n >= graph.count() {
        return false;
    }
    let label = graph.label(n);
    let id = match label.kind {
        NodeKind::OpenBrace | NodeKind::CloseBrace => match first_leaf(label.tree.as_tree()) {
            Some(token) => token.id,
            None => 0,
        },
        _ => 0,
    };
    label.brace == id
}

#[test]
fn each_form_leads_where_the_table_says(rt: HostRuntime) -> Result<(), Fail> {
    let alloc = rt.alloc();
    let file = read(alloc, EACH_FORM).ok_or("memory")?;
    let graph = file.graph(alloc, 0).ok().ok_or("memory")?;
    let graph = graph.ok_or("it is not read")?;
    assert_eq!(rt; graph.count(), 41);
    for (n, wanted) in NODES.iter().enumerate() {
        let found = node_row(alloc, &graph, n as u32)?;
        assert_eq!(rt; found.as_str(), *wanted);
        assert!(rt; has_its_brace(&graph, n as u32));
    }
    Ok(())
}
