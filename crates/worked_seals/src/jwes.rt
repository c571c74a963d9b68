// The calls of `jwe_flat`.
use crate::keys::{block_of, key_of, nonce_of};
use jwe_flat::{
    CipherWhy, ContentKey, FlatJwe, JweOpen, JweRead, jwe_doc, open_jwe, read_jwe, seal_jwe,
};
use n32_values::{Node, Text, read_base64url};
use std::alloc::Global;
use worked_rows::{Args, fault_node, text_node, words_of};

fn written(alloc: Global, jwe: FlatJwe) -> Option<Node> {
    jwe_doc(alloc, &jwe).ok()
}

fn sealed(
    alloc: Global,
    key: ContentKey,
    nonce: [u8; 12],
    block: &str,
    values: &str,
) -> Option<Node> {
    match seal_jwe(alloc, &key, nonce, block.as_bytes(), values.as_bytes()) {
        Ok(jwe) => written(alloc, jwe),
        Err(_) => None,
    }
}

/// The document of the JWE of the texts `block` and `values`; key and nonce are hexadecimal digits.
pub fn seal_jwe_call(alloc: Global, args: Args<'_>) -> Option<Node> {
    let nonce = nonce_of(args.text("nonce")?)?;
    let block = args.text("block")?;
    let values = args.text("values")?;
    sealed(alloc, key_of(args.text("key")?)?, nonce, block, values)
}

/// The document of the JWE that `jwe` is read to, or the first bad member.
pub fn read_jwe_call(alloc: Global, args: Args<'_>) -> Option<Node> {
    match read_jwe(alloc, args.document("jwe")?) {
        Ok(jwe) => written(alloc, jwe),
        Err(JweRead::Form(member)) => fault_node(alloc, member.name()),
        Err(JweRead::NoMemory) => None,
    }
}

fn why_word(why: JweOpen) -> &'static str {
    match why {
        JweOpen::Cipher(CipherWhy::Alg) => "alg",
        JweOpen::Cipher(CipherWhy::Enc) => "enc",
        JweOpen::Cipher(CipherWhy::Zip) => "zip",
        JweOpen::Cipher(CipherWhy::Crit) => "crit",
        JweOpen::Integrity => "INTEGRITY",
        JweOpen::NoMemory => "memory",
    }
}

fn opened(alloc: Global, jwe: FlatJwe, key: ContentKey) -> Option<Node> {
    match open_jwe(alloc, &jwe, &key) {
        Ok(plain) => words_of(alloc, plain),
        Err(why) => fault_node(alloc, why_word(why)),
    }
}

fn read_and_opened(alloc: Global, jwe: FlatJwe, key: &str) -> Option<Node> {
    match key_of(key) {
        Some(key) => opened(alloc, jwe, key),
        None => None,
    }
}

/// The text that the JWE of a document is opened to, or why it isn't opened.
pub fn open_jwe_call(alloc: Global, args: Args<'_>) -> Option<Node> {
    let key = args.text("key")?;
    match read_jwe(alloc, args.document("jwe")?) {
        Ok(jwe) => read_and_opened(alloc, jwe, key),
        Err(_) => None,
    }
}

fn jwe_of(
    alloc: Global,
    protected: &str,
    aad: &str,
    iv: [u8; 12],
    ciphertext: &str,
    tag: [u8; 16],
) -> Option<FlatJwe> {
    Some(FlatJwe {
        protected: Text::from_text(alloc, protected).ok()?,
        aad: Text::from_text(alloc, aad).ok()?,
        iv,
        ciphertext: read_base64url(alloc, ciphertext).ok()?,
        tag,
    })
}

/// The same of a JWE in its parts, of which no document may be; nonce and tag are hexadecimal digits.
pub fn open_parts_call(alloc: Global, args: Args<'_>) -> Option<Node> {
    let key = args.text("key")?;
    let iv = nonce_of(args.text("nonce")?)?;
    let tag = block_of(args.text("tag")?)?;
    let protected = args.text("protected")?;
    let aad = args.text("aad")?;
    let jwe = jwe_of(alloc, protected, aad, iv, args.text("ciphertext")?, tag)?;
    read_and_opened(alloc, jwe, key)
}

fn suite_word(key: ContentKey) -> &'static str {
    key.suite().name()
}

/// The name of the suite of a key.
pub fn suite_call(alloc: Global, args: Args<'_>) -> Option<Node> {
    text_node(alloc, suite_word(key_of(args.text("key")?)?))
}
