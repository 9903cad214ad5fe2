//! Nodes, with their anchors and tags.
ghost use Rattle.std.specs.Prelude.{◌≡◌, ◌+◌, ◌*◌, ◌≤◌, ℕ, List, IfOk, OnOk, All, None, false, ◌∷◌, Some, Ok, Err};
ghost use Rattle.snap_scan.specs.Sound.{IsFounded};
ghost use Rattle.snap_parse_events.specs.Feed.{tokens_left, Took};
ghost use Rattle.snap_parse_events.specs.Names.{Names, Naming, id_of, IsAnchored, Registers};

use crate::event::Event;
use crate::machine::{Machine, ParseResult};
use crate::state::{Context, Ends, Stage, State};
use snap_content::{Lent, Text};
use snap_scan_tokens::{Marker, ScanError, ScanInfo, TScalarStyle, Tag, Token, TokenType};

impl<'a> Machine<'a> {
    ghost use Rattle.snap_parse_events.specs.PutBack.{is_prefix, AnchoredBy, MarkedBy, TaggedBy};
    ghost use Rattle.snap_parse_events.specs.Ends.{ends_at};
    ghost use Rattle.snap_scan_tokens.specs.declared.tag.Tag.{Tag as TagSeen};
    ghost use Rattle.snap_scan_tokens.specs.declared.token.TokenType.{TokenType as Kind};
    ghost use Rattle.snap_parse_events.specs.Context.{takes_indentless};
    ghost use Rattle.snap_parse_events.specs.Properties.{content_event, empty_text, is_anchor, is_property, is_tag, HasAnchor, HasTag};
    ghost use Rattle.snap_parse_events.specs.Taking.{WillTake};
    ghost use Rattle.snap_parse_events.specs.Machine.{spot_of, meaning_now, events_now, events_before, if_indentless, HasSigns, StaysSound, KeepsSoundIn, KeepsSoundFrom, GivesNode, KeepsNames, StaysOnError};
    ghost use Rattle.snap_parse_events.specs.Twin.{Parsed, Parses, Follows, filled_step, node_step};

    /// A node: its anchor and its tag, in either order, and what they stand before; or an alias.
    pub(crate) fn parse_node(&mut self, context: Context, behind: State) -> ParseResult<'a>
        ensures event { GivesNode behind result self.old self.new }
        ensures left { OnOk result (events_now self.new + 2
            ≤ events_before (tokens_left self.old.tokens) behind self.old + if_indentless context) }
        ensures names { KeepsNames result self.old self.new }
        ensures same { StaysOnError result self.old self.new }
        ensures sound { KeepsSoundIn behind result self.old self.new }
        ensures twin { Follows (node_step context behind self.old.outer.items)
            result self.old self.new }
        ensures mark { MarkedBy (λ t. is_prefix t ≡ false) result self.old.tokens }
        ensures tagged { TaggedBy result self.old.tokens }
        ensures anchored { AnchoredBy self.old.anchors.next result self.old.tokens }
    {
        let token = self.tokens.take()?;
        self.parse_node_from(token, context, behind)
    }

    /// The node that a token begins, which was taken.
    pub(crate) fn parse_node_from(
        &mut self,
        token: Token<'a>,
        context: Context,
        behind: State,
    ) -> ParseResult<'a>
        ensures event { GivesNode behind result self.old self.new }
        ensures left { OnOk result (events_now self.new
            ≤ events_before (tokens_left self.old.tokens) behind self.old
            + (2 + if_indentless context)) }
        ensures names { KeepsNames result self.old self.new }
        ensures same { StaysOnError result self.old self.new }
        ensures sound { (source : List ℕ) → Took source token.entry self.old.tokens
            → HasSigns source behind → All (HasSigns source) self.old.outer.items
            → StaysSound source result self.new.tokens (spot_of self.new) }
        ensures twin { (rest : List Kind) (found : Parsed) → WillTake self.old.tokens rest
            → self.old.tokens.held ≡ None
            → node_step context behind self.old.outer.items (token.entry.1 ∷ rest)
            ≡ Some found
            → Parses result (spot_of self.new) self.new.tokens found }
        ensures alias { (name : List ℕ) (id : ℕ) → token.entry.1 ≡ Kind.Alias name
            → id_of name self.old.anchors ≡ Some id
            → result ≡ Ok (Event.Alias id, token.entry.0) }
        ensures unknown { (name : List ℕ) → token.entry.1 ≡ Kind.Alias name
            → id_of name self.old.anchors ≡ None
            → result ≡ Err (ScanError.Syntax token.entry.0 ScanInfo.P3) }
        ensures anchor { (name : List ℕ) → token.entry.1 ≡ Kind.Anchor name
            → IfOk result (λ given. HasAnchor self.old.anchors.next given.0) }
        ensures named { (name : List ℕ) → token.entry.1 ≡ Kind.Anchor name
            → OnOk result (Registers name self.old.anchors self.new.anchors) }
        ensures tag { (tag : TagSeen) → token.entry.1 ≡ Kind.Tag tag
            → IfOk result (λ given. HasTag (Some tag) given.0) }
        ensures content { is_property token.entry.1 ≡ false → IfOk result (λ given.
            given.0 ≡ content_event context 0 None token.entry.1) }
        ensures mark { is_prefix token.entry.1 ≡ false
            → IfOk result (λ given. given.1 ≡ token.entry.0) }
    {
        match token {
            Token(mark, TokenType::Alias(name)) => self.parse_alias(mark, &name, behind),
            Token(_, TokenType::Anchor(name)) => {
                let anchor = self.anchors.register(name)?;
                let token = self.tokens.take()?;
                self.parse_anchored(token, anchor, context, behind)
            }
            Token(_, TokenType::Tag(tag)) => {
                let token = self.tokens.take()?;
                self.parse_tagged(token, tag, context, behind)
            }
            token => self.parse_content(token, 0, None, context, behind),
        }
    }

    /// The node of an anchor again.
    fn parse_alias(&mut self, mark: Marker, name: &Text, behind: State) -> ParseResult<'a>
        ensures event { GivesNode behind result self.old self.new }
        ensures left { OnOk result (events_now self.new
            ≤ events_before (tokens_left self.old.tokens) behind self.old) }
        ensures names { KeepsNames result self.old self.new }
        ensures same { StaysOnError result self.old self.new }
        ensures sound { (source : List ℕ) → IsFounded source (ScanError.Syntax mark ScanInfo.P3)
            → KeepsSoundFrom source behind result self.old self.new }
        ensures found { (id : ℕ) → id_of name.now self.old.anchors ≡ Some id
            → result ≡ Ok (Event.Alias id, mark) }
        ensures unknown { id_of name.now self.old.anchors ≡ None
            → result ≡ Err (ScanError.Syntax mark ScanInfo.P3) }
        ensures mark { IfOk result (λ given. given.1 ≡ mark) }
    {
        match self.anchors.id_of(name) {
            None => Err(ScanError::Syntax(mark, ScanInfo::P3)),
            Some(id) => {
                self.stage = Stage::Open(behind);
                Ok((Event::Alias(id), mark))
            }
        }
    }

    /// A node after its anchor, of which this token was taken.
    fn parse_anchored(
        &mut self,
        token: Token<'a>,
        anchor: usize,
        context: Context,
        behind: State,
    ) -> ParseResult<'a>
        ensures event { GivesNode behind result self.old self.new }
        ensures left { OnOk result (events_now self.new
            ≤ events_before (tokens_left self.old.tokens) behind self.old + 5) }
        ensures names { (old : Names) → IsAnchored anchor old self.old.anchors
            → IfOk result (λ given. Naming given.0 old self.new.anchors) }
        ensures same { StaysOnError result self.old self.new }
        ensures sound { (source : List ℕ) → Took source token.entry self.old.tokens
            → HasSigns source behind → All (HasSigns source) self.old.outer.items
            → StaysSound source result self.new.tokens (spot_of self.new) }
        ensures kept { self.new.anchors ≡ self.old.anchors }
        ensures anchor { IfOk result (λ given. HasAnchor anchor given.0) }
        ensures tag { (tag : TagSeen) → token.entry.1 ≡ Kind.Tag tag
            → IfOk result (λ given. HasTag (Some tag) given.0) }
        ensures content { is_tag token.entry.1 ≡ false → IfOk result (λ given.
            given.0 ≡ content_event context anchor None token.entry.1) }
        ensures mark { is_tag token.entry.1 ≡ false
            → IfOk result (λ given. given.1 ≡ token.entry.0) }
    {
        match token {
            Token(_, TokenType::Tag(tag)) => {
                let token = self.tokens.take()?;
                let tag = Some(tag);
                self.parse_content(token, anchor, tag, context, behind)
            }
            token => self.parse_content(token, anchor, None, context, behind),
        }
    }

    /// A node after its tag, of which this token was taken.
    fn parse_tagged(
        &mut self,
        token: Token<'a>,
        tag: Tag,
        context: Context,
        behind: State,
    ) -> ParseResult<'a>
        ensures event { GivesNode behind result self.old self.new }
        ensures left { OnOk result (events_now self.new
            ≤ events_before (tokens_left self.old.tokens) behind self.old + 5) }
        ensures names { KeepsNames result self.old self.new }
        ensures same { StaysOnError result self.old self.new }
        ensures sound { (source : List ℕ) → Took source token.entry self.old.tokens
            → HasSigns source behind → All (HasSigns source) self.old.outer.items
            → StaysSound source result self.new.tokens (spot_of self.new) }
        ensures tag { IfOk result (λ given. HasTag (Some tag) given.0) }
        ensures anchor { (name : List ℕ) → token.entry.1 ≡ Kind.Anchor name
            → IfOk result (λ given. HasAnchor self.old.anchors.next given.0) }
        ensures named { (name : List ℕ) → token.entry.1 ≡ Kind.Anchor name
            → OnOk result (Registers name self.old.anchors self.new.anchors) }
        ensures content { is_anchor token.entry.1 ≡ false → IfOk result (λ given.
            given.0 ≡ content_event context 0 (Some tag) token.entry.1) }
        ensures mark { is_anchor token.entry.1 ≡ false
            → IfOk result (λ given. given.1 ≡ token.entry.0) }
    {
        match token {
            Token(_, TokenType::Anchor(name)) => {
                let anchor = self.anchors.register(name)?;
                let token = self.tokens.take()?;
                self.parse_content(token, anchor, Some(tag), context, behind)
            }
            token => self.parse_content(token, 0, Some(tag), context, behind),
        }
    }

    /// A node after its anchor and tag. With one of them it may be empty.
    fn parse_content(
        &mut self,
        token: Token<'a>,
        anchor: usize,
        tag: Option<Tag>,
        context: Context,
        behind: State,
    ) -> ParseResult<'a>
        ensures event { GivesNode behind result self.old self.new }
        ensures left { OnOk result (events_now self.new
            ≤ events_before (tokens_left self.old.tokens) behind self.old + 5) }
        ensures bare { anchor ≡ 0 → tag ≡ None → takes_indentless context ≡ false
            → OnOk result (events_now self.new
            ≤ events_before (tokens_left self.old.tokens) behind self.old + 2) }
        ensures names { (old : Names) → IsAnchored anchor old self.old.anchors
            → IfOk result (λ given. Naming given.0 old self.new.anchors) }
        ensures same { StaysOnError result self.old self.new }
        ensures sound { (source : List ℕ) → Took source token.entry self.old.tokens
            → HasSigns source behind → All (HasSigns source) self.old.outer.items
            → StaysSound source result self.new.tokens (spot_of self.new) }
        ensures twin { (rest : List Kind) (found : Parsed) → anchor ≡ 0 → tag ≡ None
            → WillTake self.old.tokens rest → self.old.tokens.held ≡ None
            → node_step context behind self.old.outer.items (token.entry.1 ∷ rest)
            ≡ Some found
            → Parses result (spot_of self.new) self.new.tokens found }
        ensures kept { self.new.anchors ≡ self.old.anchors }
        ensures content { IfOk result (λ given.
            given.0 ≡ content_event context anchor tag token.entry.1) }
        ensures anchor { IfOk result (λ given. HasAnchor anchor given.0) }
        ensures tag { IfOk result (λ given. HasTag tag given.0) }
        ensures mark { IfOk result (λ given. given.1 ≡ token.entry.0) }
    {
        let is_block = context.takes_blocks();
        let is_indentless = context.takes_indentless();
        match token {
            Token(mark, TokenType::Scalar(style, text)) => {
                self.stage = Stage::Open(behind);
                Ok((Event::Scalar(text, style, anchor, tag), mark))
            }
            Token(mark, TokenType::FlowSequenceStart) => {
                self.begin(State::FlowSequenceFirstEntry, behind)?;
                Ok((Event::SequenceStart(anchor), mark))
            }
            Token(mark, TokenType::FlowMappingStart) => {
                self.begin(State::FlowMappingFirstKey, behind)?;
                Ok((Event::MappingStart(anchor), mark))
            }
            Token(mark, TokenType::BlockSequenceStart) if is_block => {
                self.begin(State::BlockSequenceEntry, behind)?;
                Ok((Event::SequenceStart(anchor), mark))
            }
            Token(mark, TokenType::BlockMappingStart) if is_block => {
                self.begin(State::BlockMappingKey, behind)?;
                Ok((Event::MappingStart(anchor), mark))
            }
            Token(mark, TokenType::BlockEntry) if is_indentless => {
                self.begin(State::IndentlessSequenceEntry, behind)?;
                self.tokens.put_back(Token(mark, TokenType::BlockEntry));
                Ok((Event::SequenceStart(anchor), mark))
            }
            token => self.parse_nothing(token, anchor, tag, behind),
        }
    }

    /// Where no node begins: the empty text with the anchor and the tag that stand before it.
    fn parse_nothing(
        &mut self,
        token: Token<'a>,
        anchor: usize,
        tag: Option<Tag>,
        behind: State,
    ) -> ParseResult<'a>
        ensures event { GivesNode behind result self.old self.new }
        ensures left { OnOk result (events_now self.new
            ≤ events_before (tokens_left self.old.tokens) behind self.old + 4) }
        ensures bare { anchor ≡ 0 → tag ≡ None → OnOk result (events_now self.new
            ≤ events_before (tokens_left self.old.tokens) behind self.old) }
        ensures names { (old : Names) → IsAnchored anchor old self.old.anchors
            → IfOk result (λ given. Naming given.0 old self.new.anchors) }
        ensures same { StaysOnError result self.old self.new }
        ensures sound { (source : List ℕ) → Took source token.entry self.old.tokens
            → HasSigns source behind → All (HasSigns source) self.old.outer.items
            → StaysSound source result self.new.tokens (spot_of self.new) }
        ensures kept { self.new.anchors ≡ self.old.anchors }
        ensures text { IfOk result (λ given. given.0 ≡ empty_text anchor tag) }
        ensures mark { IfOk result (λ given. given.1 ≡ token.entry.0) }
    {
        let mark = token.0;
        if anchor == 0 && tag.is_none() {
            return Err(ScanError::Syntax(mark, ScanInfo::P4));
        }
        self.tokens.put_back(token);
        self.stage = Stage::Open(behind);
        let event = Event::Scalar(Lent::borrowed(""), TScalarStyle::Plain, anchor, tag);
        Ok((event, mark))
    }

    /// A node, or the scalar `~` where a token stands that ends it.
    pub(crate) fn parse_filled(
        &mut self,
        ends: Ends,
        context: Context,
        behind: State,
    ) -> ParseResult<'a>
        ensures event { GivesNode behind result self.old self.new }
        ensures left { OnOk result (events_now self.new
            ≤ events_before (tokens_left self.old.tokens) behind self.old + 1) }
        ensures names { KeepsNames result self.old self.new }
        ensures same { StaysOnError result self.old self.new }
        ensures sound { KeepsSoundIn behind result self.old self.new }
        ensures twin { Follows (filled_step ends context behind self.old.outer.items)
            result self.old self.new }
        ensures mark { MarkedBy (λ t. is_prefix t ≡ false) result self.old.tokens }
        ensures tagged { ((tag : TagSeen) → ends_at ends (Kind.Tag tag) ≡ false)
            → TaggedBy result self.old.tokens }
        ensures anchored { ((name : List ℕ) → ends_at ends (Kind.Anchor name) ≡ false)
            → AnchoredBy self.old.anchors.next result self.old.tokens }
    {
        let token = self.tokens.take()?;
        if !ends.has(&token.1) {
            return self.parse_node_from(token, context, behind);
        }
        let mark = token.0;
        self.tokens.put_back(token);
        self.give_empty(mark, behind)
    }
}
