//! Scripts, literals and arguments from their bytes.

ghost use Rattle.std.specs.Prelude.{◌≡◌, ◌<◌, ◌^◌, List, length, IfOk, IfErr};
ghost use Rattle.js_syntax.specs.Tree.{IsTreeOf};
ghost use Rattle.js_lexer.specs.declared.token.Token.{Token};
ghost use Rattle.parser_rules.specs.Grammar.{within, at_start, answer_by, accepted, limit};
ghost use Rattle.js_parser.specs.State.{state_of, Runs};
ghost use Rattle.js_parser.specs.Accepted.{IsAccepted, IsFaultBy, IsRejected, IsWholeTree, rule_for};
ghost use Rattle.js_parser.specs.View.{tree_of};
ghost use Rattle.js_parser.specs.Parsed.{IsScriptOf, IsLiteralOf, AreArgumentsOf, IsFault, IsLiteralFault, IsArgumentsFault};
ghost use Rattle.js_parser.specs.Changes.{last_tree};
ghost use Rattle.js_parser.specs.Nodes.{AreOfTheirTree};

use crate::builder::Builder;
use crate::classes::class_of;
use crate::draft::Draft;
use crate::grammar::Grammar;
use crate::laws::accepted_trees_are_whole;
use crate::limit::{refusal, stop_beyond};
use crate::nodes::Nodes;
use crate::prune::prune;
use crate::reader::Reader;
use ivm_text::{Items, NoMemory};
use js_lexer::{SyntaxFault, Token, lex};
use js_syntax::{Kind, Script};
use parser_rules::Form;
use std::alloc::Global;

/// How many statements, expressions and operators before an operand may be open at a token; and in
/// texts of literals, how many literals.
const LEVELS: u32 = 200;

/// What a text is read as.
#[derive(Clone, Copy, Drop)]
enum Whole {
    Script,
    Literal,
    Arguments,
}

/// The script of a text of fewer than 2^32 bytes: the nodes of the text's one tree, each under its
/// number, and no others.
///
/// The text is refused as `lex` refuses it, and else exactly where the grammar of scripts has no
/// tree for its tokens: at the byte of the first bad token, or at the number of bytes where no
/// token is bad. The kind is `OutOfProfile`, with the word, where that token is one that this
/// project leaves out; else `TooDeep` where it may stand there but is open to more than 200 levels;
/// else `Unexpected`.
pub fn parse(alloc: Global, text: &[u8]) -> Result<Script, SyntaxFault>
    requires { length text.now < 2 ^ 32 }

    ensures ok { IfOk result (IsScriptOf text.now) }
    ensures nodes { IfOk result AreOfTheirTree }
    ensures err { IfErr result (IsFault text.now) }
{
    parse_whole(alloc, text, Whole::Script)
}

/// The nodes of a text of one literal, of fewer than 2^32 bytes: a root, whose one kid is the
/// literal.
///
/// The text is refused as `parse` refuses it, by the grammar of literals.
pub fn parse_literal(alloc: Global, text: &[u8]) -> Result<Script, SyntaxFault>
    requires { length text.now < 2 ^ 32 }

    ensures ok { IfOk result (IsLiteralOf text.now) }
    ensures tree { IfOk result (λ nodes. IsTreeOf nodes (tree_of nodes)) }
    ensures nodes { IfOk result AreOfTheirTree }
    ensures err { IfErr result (IsLiteralFault text.now) }
{
    parse_whole(alloc, text, Whole::Literal)
}

/// The nodes of a text of arguments, maybe none, of fewer than 2^32 bytes: a root, whose kids are
/// literals and calls as `ref(x)`.
///
/// The text is refused as `parse` refuses it, by the grammar of arguments.
pub fn parse_arguments(alloc: Global, text: &[u8]) -> Result<Script, SyntaxFault>
    requires { length text.now < 2 ^ 32 }

    ensures ok { IfOk result (AreArgumentsOf text.now) }
    ensures tree { IfOk result (λ nodes. IsTreeOf nodes (tree_of nodes)) }
    ensures nodes { IfOk result AreOfTheirTree }
    ensures err { IfErr result (IsArgumentsFault text.now) }
{
    parse_whole(alloc, text, Whole::Arguments)
}

fn parse_whole(alloc: Global, text: &[u8], whole: Whole) -> Result<Script, SyntaxFault>
    requires { length text.now < 2 ^ 32 }

    ensures ok { IfOk result (λ script. IsAccepted (rule_for whole) text.now (tree_of script)) }
    ensures tree { IfOk result (λ script. IsTreeOf script (tree_of script)) }
    ensures nodes { IfOk result AreOfTheirTree }
    ensures err { IfErr result (IsFaultBy (rule_for whole) text.now) }
{
    match lex(alloc, text) {
        Ok(tokens) => parse_tokens(alloc, tokens.as_slice(), text.len() as u32, whole),
        Err(fault) => Err(fault),
    }
}

fn parse_tokens(
    alloc: Global,
    tokens: &[Token],
    end: u32,
    whole: Whole,
) -> Result<Script, SyntaxFault>
    ensures ok { IfOk result (λ script. answer_by (rule_for whole) end tokens.now ≡ accepted (tree_of script)) }
    ensures tree { IfOk result (λ script. IsTreeOf script (tree_of script)) }
    ensures nodes { IfOk result AreOfTheirTree }
    ensures err { IfErr result (IsRejected (rule_for whole) end tokens.now) }
{
    let mut reader = start(alloc, tokens)?;
    read_whole(&mut reader, whole)?;
    match reader.refused {
        Some(why) => {
            let refused = refusal(alloc, &reader, why, end)?;
            Err(SyntaxFault::Refused(refused))
        }
        None => {
            accepted_trees_are_whole();
            finished(reader.builder)
        }
    }
}

/// Nothing is read, and the root is the innermost form.
fn start(alloc: Global, tokens: &[Token]) -> Result<Reader<'_>, NoMemory>
    ensures { IfOk result (λ reader. state_of reader ≡ at_start tokens.now) }
{
    let outer = Draft::new(alloc, Kind::Absent, 0);
    let top = Draft::new(alloc, Kind::Script, 0);
    let nodes = Nodes::new(alloc);
    let class = class_of(tokens);
    let mut below = Items::new(alloc);
    below.push(outer)?;
    Ok(Reader {
        tokens,
        at: 0,
        class,
        refused: None,
        builder: Builder {
            alloc,
            nodes,
            top,
            below,
        },
    })
}

/// Reads a whole text.
fn read_whole(reader: &mut Reader<'_>, whole: Whole) -> Result<(), NoMemory>
    ensures { Runs limit (rule_for whole) result reader.old reader.new }
{
    let grammar = Grammar {
        levels: LEVELS,
        inside: read,
    };
    match whole {
        Whole::Script => grammar.script(reader),
        Whole::Literal => grammar.literal_text(reader),
        Whole::Arguments => grammar.arguments_text(reader),
    }
}

/// Reads a form where so many levels are left.
fn read(reader: &mut Reader<'_>, levels: u32, form: Form) -> Result<(), NoMemory>
    ensures { IfOk result (λ _. state_of reader.new ≡ within levels form (state_of reader.old)) }
{
    match reader.refused {
        Some(_) => Ok(()),
        None => {
            if levels == 0 {
                stop_beyond(reader, form);
                return Ok(());
            }
            let grammar = Grammar {
                levels: levels - 1,
                inside: read,
            };
            match form {
                Form::Expression => grammar.expression(reader),
                Form::Prefix => grammar.prefix(reader),
                Form::Statement => grammar.statement(reader),
                Form::Item => grammar.item(reader),
                Form::Block => grammar.block(reader),
                Form::Literal => grammar.literal(reader),
            }
        }
    }
}

/// The script whose root is the last part of the innermost form: the nodes of that part's tree, and
/// no others.
fn finished(builder: Builder) -> Result<Script, SyntaxFault>
    requires { IsWholeTree (last_tree builder) }

    ensures ok { IfOk result (λ script. tree_of script ≡ last_tree builder) }
    ensures tree { IfOk result (λ script. IsTreeOf script (tree_of script)) }
    ensures nodes { IfOk result AreOfTheirTree }
    ensures err { IfErr result (λ fault. fault ≡ SyntaxFault.NoMemory) }
{
    let root = builder.last_piece().unwrap().node;
    let nodes = builder.nodes.up_to(root);
    Ok(prune(builder.alloc, &nodes)?)
}
