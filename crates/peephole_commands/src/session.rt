//! What the program keeps between two lines, and what each command does to it.

ghost use Rattle.std.specs.Prelude.{◌≡◌, ◌<◌, ◌≤◌, ◌^◌, All, [], map, length, Some, Ok, Err, IfOk};
ghost use Rattle.peephole_lang.specs.Node.{node_of};
ghost use Rattle.peephole_lang.specs.Term.{numbers_of};
ghost use Rattle.peephole_lang.specs.Text.{reads};
ghost use Rattle.peephole_graphs.specs.Layout.{AreWritable};
ghost use Rattle.peephole_script.specs.Text.{texts};
ghost use Rattle.peephole_commands.specs.Arguments.{named_children};
ghost use Rattle.peephole_commands.specs.State.{SessionState, PointsInto, KeepsTheBlock, block_in, start};
ghost use Rattle.peephole_commands.specs.Graphs.{IsPlaceInBlock, KeepsTheGraph};
ghost use Rattle.peephole_commands.specs.Commands.{step_line, words_step, command_step, declare_step, local_step, preserve_step, draw_step, body_step, at_step, node_step, node_with, node_read, place_in, place_for, show_step, result_step, write_step, Steps, Finds};

use crate::arguments::{ids_of, only};
use crate::body::Body;
use crate::graphs::point_graph;
use crate::place::Place;
use crate::reply::{block_line, refusal_line, told_line, written_lines};
use crate::results::point_type;
use crate::show::show_graph;
use crate::writing::write_nodes;
use given_words::LentWords;
use mutate_base::{Error, WasmMutate};
use peephole_analysis::PeepholeMutationAnalysis;
use peephole_lang::{Id, Lang, RecExpr};
use peephole_script::{
    Command, Declaration, Fault, command_of, declare, is_text, is_yes, number_of, read_digits,
    type_of, words_of,
};
use peephole_terms::laws::{blocks_are_found, own_trees_are_kept};
use peephole_terms::{BBlock, MiniDFG};
use std::alloc::Global;
use std::marker::Model;
use std::mem;
use wasm_code::ReadKind;
use wasm_types::{ModuleInfo, PrimitiveTypeInfo};

/// What the program keeps between two lines: the module and the mode, the words to be drawn, the body, the operator that is
/// the point, and the term.
#[derive(Drop)]
pub struct Session {
    alloc: Global,
    info: ModuleInfo<'static>,
    locals: Vec<PrimitiveTypeInfo>,
    preserving: bool,
    words: Vec<u64>,
    body: Option<Body>,
    point: Option<usize>,
    nodes: RecExpr<Lang>,
    // The point's block and its graph, once a command has asked for them, as long as what they were made from stays the same.
    block: Option<BBlock>,
    graph: Option<MiniDFG>,
}

impl Model for Session {
    ghost Value = { SessionState };

    ghost view = { λ s. record {
      info = s.info;
      locals = s.locals.items;
      preserving = s.preserving;
      words = s.words.items;
      body = s.body;
      point = s.point;
      nodes = map node_of s.nodes;
    } };

    ghost invariant = { λ s. PointsInto s.body s.point × (length s.nodes ≤ 2 ^ 32) × AreWritable s.nodes
        × KeepsTheBlock s.body s.point s.block
        × KeepsTheGraph s.info s.preserving (place_in s.body s.point) s.graph };
}

impl Session {
    /// What stands before the first line: an empty module, no body, no point and no node.
    pub fn new(alloc: Global) -> Self
        ensures { result ≡ start }
    {
        Session {
            alloc,
            info: ModuleInfo::new(alloc, &[]),
            locals: Vec::new(alloc),
            preserving: false,
            words: Vec::new(alloc),
            body: None,
            point: None,
            nodes: RecExpr::new(alloc),
            block: None,
            graph: None,
        }
    }

    /// Runs a line, and answers what it prints; or its fault.
    pub fn run_line(&mut self, line: &[u8]) -> Result<Vec<u8>, Fault>
        ensures { Steps (step_line self.old line.now) self.new result }
    {
        if !is_text(line) {
            return Err(Fault::Text);
        }
        let Ok(line) = str::from_utf8(line) else {
            return Err(Fault::Text);
        };
        let Ok(words) = words_of(self.alloc, line) else {
            return Err(Fault::Memory);
        };
        self.run_words(words.as_slice())
    }

    fn run_words(&mut self, words: &[&str]) -> Result<Vec<u8>, Fault>
        ensures { Steps (words_step self.old (texts words.now)) self.new result }
    {
        match words {
            [] => Ok(Vec::new(self.alloc)),
            [name, arguments @ ..] => match command_of(name) {
                Some(command) => self.run_command(command, arguments),
                None => Err(Fault::UnknownCommand),
            },
        }
    }

    fn run_command(&mut self, command: Command, arguments: &[&str]) -> Result<Vec<u8>, Fault>
        ensures { Steps (command_step command self.old (texts arguments.now)) self.new result }
    {
        match command {
            Command::Body => self.body(arguments),
            Command::At => self.at(arguments),
            Command::Node => self.node(arguments),
            Command::Write => self.write(arguments),
            Command::Show => self.show(arguments),
            Command::Result => self.tell_result(arguments),
            Command::Local => self.local(arguments),
            Command::Preserve => self.preserve(arguments),
            Command::Word => self.word(arguments),
            Command::Declare(declaration) => self.declare(declaration, arguments),
        }
    }

    fn declare(&mut self, declaration: Declaration, arguments: &[&str]) -> Result<Vec<u8>, Fault>
        ensures { Steps (declare_step declaration self.old (texts arguments.now)) self.new result }
    {
        self.graph = None;
        declare(self.alloc, &mut self.info, declaration, arguments)?;
        Ok(Vec::new(self.alloc))
    }

    fn local(&mut self, arguments: &[&str]) -> Result<Vec<u8>, Fault>
        ensures { Steps (local_step self.old (texts arguments.now)) self.new result }
    {
        let Some(value) = type_of(only(arguments)?) else {
            return Err(Fault::BadArgument);
        };
        self.locals.push(value)?;
        Ok(Vec::new(self.alloc))
    }

    fn preserve(&mut self, arguments: &[&str]) -> Result<Vec<u8>, Fault>
        ensures { Steps (preserve_step self.old (texts arguments.now)) self.new result }
    {
        let Some(preserving) = is_yes(only(arguments)?) else {
            return Err(Fault::BadArgument);
        };
        self.preserving = preserving;
        self.graph = None;
        Ok(Vec::new(self.alloc))
    }

    fn word(&mut self, arguments: &[&str]) -> Result<Vec<u8>, Fault>
        ensures { Steps (draw_step self.old (texts arguments.now)) self.new result }
    {
        let Some(number) = number_of(only(arguments)?) else {
            return Err(Fault::BadArgument);
        };
        self.words.push(number)?;
        Ok(Vec::new(self.alloc))
    }

    fn body(&mut self, arguments: &[&str]) -> Result<Vec<u8>, Fault>
        ensures { Steps (body_step self.old (texts arguments.now)) self.new result }
    {
        let bytes = read_digits(self.alloc, arguments)?;
        match Body::read(self.alloc, bytes) {
            Ok(body) => {
                self.body = Some(body);
                self.point = None;
                self.nodes = RecExpr::new(self.alloc);
                self.block = None;
                self.graph = None;
                Ok(Vec::new(self.alloc))
            }
            Err(ReadKind::Memory) => Err(Fault::Memory),
            Err(kind) => Err(Fault::Read(kind)),
        }
    }

    fn at(&mut self, arguments: &[&str]) -> Result<Vec<u8>, Fault>
        ensures { Steps (at_step self.old (texts arguments.now)) self.new result }
    {
        let Some(number) = number_of(only(arguments)?) else {
            return Err(Fault::BadArgument);
        };
        let Some(body) = &mut self.body else {
            return Err(Fault::NoBody);
        };
        if number >= body.len() as u64 {
            return Err(Fault::OutOfRange);
        }
        let index = number as usize;
        if self.point.is_some() {
            body.keep_starts(self.alloc);
        }
        let line = block_line(self.alloc, body.range_at(index))?;
        self.point = Some(index);
        self.nodes = RecExpr::new(self.alloc);
        self.block = None;
        self.graph = None;
        Ok(line)
    }

    fn node(&mut self, arguments: &[&str]) -> Result<Vec<u8>, Fault>
        ensures { Steps (node_step self.old (texts arguments.now)) self.new result }
    {
        let [text, words @ ..] = arguments else {
            return Err(Fault::BadArgument);
        };
        self.node_of_words(text, words)
    }

    fn node_of_words(&mut self, text: &str, words: &[&str]) -> Result<Vec<u8>, Fault>
        ensures { Steps (node_with self.old text.now
            (named_children (length self.old.nodes) (texts words.now))) self.new result }
    {
        let children = ids_of(self.alloc, words, self.node_count())?;
        self.add_node(text, children)
    }

    fn node_count(&self) -> u64
        ensures count { result ≡ length self.now.nodes }
        ensures small { result ≤ 2 ^ 32 }
    {
        self.nodes.len() as u64
    }

    fn add_node(&mut self, text: &str, children: Vec<Id>) -> Result<Vec<u8>, Fault>
        requires { All (λ child. child < length self.old.nodes) (numbers_of children.items) }
        ensures { Steps (node_read self.old (numbers_of children.items)
            (reads text.now (length children.items))) self.new result }
    {
        let node = match Lang::from_op_str(text, children) {
            Ok(node) => node,
            Err(error) => return Err(Fault::Term(error)),
        };
        if !node.is_writable() {
            return Err(Fault::Unwritable);
        }
        match self.nodes.add(node) {
            Ok(_) => Ok(Vec::new(self.alloc)),
            Err(Error::TooLarge) => Err(Fault::TooLarge),
            Err(_) => Err(Fault::Memory),
        }
    }

    fn show(&mut self, arguments: &[&str]) -> Result<Vec<u8>, Fault>
        ensures { Steps (show_step self.old (texts arguments.now)) self.new result }
    {
        self.block = point_block(&self.body, self.point, self.block.take());
        let place = place_for(&self.body, self.point, &self.block, arguments)?;
        let kept = self.graph.take();
        match point_graph(self.alloc, kept, &self.info, self.preserving, &place) {
            Ok(graph) => {
                let Ok(text) = show_graph(self.alloc, &graph) else {
                    return Err(Fault::Memory);
                };
                self.graph = Some(graph);
                Ok(text.into_bytes())
            }
            Err(refusal) => refusal_line(self.alloc, refusal),
        }
    }

    fn tell_result(&mut self, arguments: &[&str]) -> Result<Vec<u8>, Fault>
        ensures { Steps (result_step self.old (texts arguments.now)) self.new result }
    {
        own_trees_are_kept();
        self.block = point_block(&self.body, self.point, self.block.take());
        let place = place_for(&self.body, self.point, &self.block, arguments)?;
        let kept = self.graph.take();
        match point_graph(self.alloc, kept, &self.info, self.preserving, &place) {
            Ok(graph) => {
                let info = mem::replace(&mut self.info, ModuleInfo::new(self.alloc, &[]));
                let locals = mem::replace(&mut self.locals, Vec::new(self.alloc));
                let analysis = PeepholeMutationAnalysis::of(info, locals);
                let told = point_type(self.alloc, &analysis, &graph, &place);
                let (info, locals) = analysis.into_parts();
                self.info = info;
                self.locals = locals;
                self.graph = Some(graph);
                told_line(self.alloc, told)
            }
            Err(refusal) => refusal_line(self.alloc, refusal),
        }
    }

    fn write(&mut self, arguments: &[&str]) -> Result<Vec<u8>, Fault>
        ensures { Steps (write_step self.old (texts arguments.now)) self.new result }
    {
        self.block = point_block(&self.body, self.point, self.block.take());
        let place = place_for(&self.body, self.point, &self.block, arguments)?;
        let kept = self.graph.take();
        match point_graph(self.alloc, kept, &self.info, self.preserving, &place) {
            Ok(graph) => {
                let info = mem::replace(&mut self.info, ModuleInfo::new(self.alloc, &[]));
                let mut config = config_of(info, self.preserving, self.words.as_slice());
                let written = write_nodes(self.alloc, &mut config, &place, &self.nodes, &graph);
                self.info = config.into_info();
                self.graph = Some(graph);
                written_lines(self.alloc, written)
            }
            Err(refusal) => refusal_line(self.alloc, refusal),
        }
    }
}

// The configuration of a module and a mode, and of words from the first one on.
fn config_of<'a>(
    info: ModuleInfo<'static>,
    preserving: bool,
    words: &'a [u64],
) -> WasmMutate<'static, LentWords<'a>>
    ensures mode { result.preserving ≡ preserving }
    ensures setup { result.setup ≡ Some (record { info = info.entry; generator = words.now }) }
{
    let mut config = WasmMutate::new();
    config.preserve_semantics(preserving);
    config.set_up(info, LentWords::new(words));
    config
}

// The point's block, if there is one: the one that is kept, or one that is found, in time linear in the block.
fn point_block(body: &Option<Body>, point: Option<usize>, kept: Option<BBlock>) -> Option<BBlock>
    requires point { PointsInto body.now point }
    requires kept { KeepsTheBlock body.now point kept }
    ensures { result ≡ block_in body.now point }
{
    if kept.is_some() {
        return kept;
    }
    match (body, point) {
        (Some(body), Some(point)) => body.block_at(point),
        _ => None,
    }
}

// Where a command without arguments works.
fn place_for<'a>(
    body: &'a Option<Body>,
    point: Option<usize>,
    block: &'a Option<BBlock>,
    arguments: &[&str],
) -> Result<Place<'a>, Fault>
    requires point { PointsInto body.now point }
    requires block { block.now ≡ block_in body.now point }
    ensures place { Finds (place_for body.now point (texts arguments.now)) result }
    ensures is { IfOk result IsPlaceInBlock }
{
    blocks_are_found();
    if !arguments.is_empty() {
        return Err(Fault::BadArgument);
    }
    let (Some(body), Some(point)) = (body, point) else {
        return Err(Fault::NoBlock);
    };
    match block {
        Some(block) => Ok(Place { body, point, block }),
        None => Err(Fault::NoBlock),
    }
}
