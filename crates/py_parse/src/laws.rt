ghost use Rattle.py_parse.specs.Parsed.{HasOneTree, HasOneRefusal, HasNotBoth, AreAllFollowed};

use py_lex::Tokens;

/// The laws of trees and refusals: a source and its tokens have one tree at the most, one refusal at the most, and not
/// both. The notes of a tree are those of the source, in order, and each speaks of the first token behind it that is
/// neither an Indent nor a Dedent.
pub fn tree_laws(_source: &[u8], _tokens: &Tokens)
    ensures one_tree { HasOneTree _source.now _tokens.now }
    ensures one_refusal { HasOneRefusal _source.now _tokens.now }
    ensures not_both { HasNotBoth _source.now _tokens.now }
    ensures next { AreAllFollowed _source.now _tokens.now }
{}
