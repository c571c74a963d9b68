// Where a node of a block stands, as far as holes go.
ghost use Rattle.std.specs.Prelude.{◌≡◌};
ghost use Rattle.enc_index.specs.Sites.{item_site, member_site, entered_site, block_site, line_site, value_site};

#[derive(Clone, Copy, Drop)]
pub(crate) enum Site {
    Block,
    RequestLine,
    Path,
    Query,
    Headers,
    Header,
    // The value of a header, which may be a hole.
    HeaderValue,
    Payload,
    Item,
    // At or beneath the value of an item, where each object may be a hole.
    Value,
    Elsewhere,
}

impl Site {
    // Where the items of a list here stand.
    pub(crate) fn item(self) -> Site
        ensures { result ≡ item_site self }
    {
        match self {
            Site::Headers => Site::Header,
            Site::Payload => Site::Item,
            Site::Value => Site::Value,
            _ => Site::Elsewhere,
        }
    }

    // Where a member of an object here stands.
    pub(crate) fn member(self, name: &str) -> Site
        ensures { result ≡ member_site self name.now }
    {
        match self {
            Site::Block => part_of_block(name),
            Site::RequestLine => part_of_line(name),
            Site::Header => value_or_elsewhere(name, Site::HeaderValue),
            Site::Item => value_or_elsewhere(name, Site::Value),
            Site::Value => Site::Value,
            _ => Site::Elsewhere,
        }
    }

    // Where an object here stands: at a header's value only one with a member `encBlockIndex` is looked into.
    pub(crate) fn entered(self, is_marked: bool) -> Site
        ensures { result ≡ entered_site self is_marked }
    {
        match self {
            Site::HeaderValue => if is_marked {
                Site::Value
            } else {
                Site::Elsewhere
            },
            _ => self,
        }
    }
}

fn part_of_block(name: &str) -> Site
    ensures { result ≡ block_site name.now }
{
    if name == "requestLine" {
        Site::RequestLine
    } else if name == "headers" {
        Site::Headers
    } else if name == "payload" {
        Site::Payload
    } else {
        Site::Elsewhere
    }
}

fn part_of_line(name: &str) -> Site
    ensures { result ≡ line_site name.now }
{
    if name == "path" {
        Site::Path
    } else if name == "queryFragment" {
        Site::Query
    } else {
        Site::Elsewhere
    }
}

fn value_or_elsewhere(name: &str, value: Site) -> Site
    ensures { result ≡ value_site value name.now }
{
    if name == "value" {
        value
    } else {
        Site::Elsewhere
    }
}
