ghost use Rattle.std.specs.Prelude.{◌≡◌, ◌^◌, ◌<◌, ◌≤◌};
ghost use Rattle.heap_words.specs.Encoding.{is_forwarded, forwardee_in, header_word, filler_header, filler_words_in, buffer_word, next_in, end_in, shape_word, refs_in, nums_in, object_words, name_code, thread_in, count_in, request_code, request_count_in, request_shape_in, HeadersUndo, FillersUndo, BuffersUndo, ShapesUndo, NamesUndo, RequestsUndo};

/// Whether a header word is that of an object that has moved: its address has been put over it
/// (the forwarding pointer of Shenandoah's second edition, JEP 379).
pub fn forwarded(header: u64) -> bool
    ensures { result ≡ is_forwarded header }
{
    header % 4 == 3
}

/// The address of the copy that a forwarded header names.
pub fn forwardee(header: u64) -> u64
    ensures { result ≡ forwardee_in header }
{
    header / 4
}

/// The header of an object whose copy is at `address`.
pub fn header_to(address: u64) -> u64
    requires { address < 2 ^ 62 }
    ensures { result ≡ header_word address }
{
    4 * address + 3
}

/// The header of `words` words that only fill.
pub fn filler(words: u64) -> u64
    requires { words < 2 ^ 62 }
    ensures { result ≡ filler_header words }
{
    4 * words + 2
}

/// How many words only fill, if the header is one of such words.
pub fn filler_words(header: u64) -> Option<u64>
    ensures { result ≡ filler_words_in header }
{
    if header % 4 == 2 {
        Some(header / 4)
    } else {
        None
    }
}

/// The word of a buffer whose free words are those from `next` up to `end`.
pub fn buffer(next: u64, end: u64) -> u64
    requires next { next < 2 ^ 32 }
    requires end { end < 2 ^ 32 }
    ensures { result ≡ buffer_word next end }
{
    4294967296 * end + next
}

/// Where the free words of a buffer begin.
pub fn next_of(word: u64) -> u64
    ensures { result ≡ next_in word }
{
    word % 4294967296
}

/// The address behind the last free word of a buffer.
pub fn end_of(word: u64) -> u64
    ensures { result ≡ end_in word }
{
    word / 4294967296
}

/// The shape word of an object of `refs` references and `nums` numbers.
pub fn shape_of(refs: u64, nums: u64) -> u64
    requires refs { refs ≤ 16 }
    requires nums { nums ≤ 16 }
    ensures { result ≡ shape_word refs nums }
{
    65536 + 256 * refs + nums
}

/// The references of an object with this shape word.
pub fn refs_of(shape: u64) -> u64
    ensures { result ≡ refs_in shape }
{
    shape / 256 % 256
}

/// The numbers of an object with this shape word.
pub fn nums_of(shape: u64) -> u64
    ensures { result ≡ nums_in shape }
{
    shape % 256
}

/// The words of an object with this shape word: header, shape, name and fields.
pub fn words_of(shape: u64) -> u64
    ensures { result ≡ object_words shape }
{
    3 + refs_of(shape) + nums_of(shape)
}

/// The name word of the object that a thread, counted from 1, made as its `count`th.
pub fn name_word(thread: u32, count: u32) -> u64
    ensures { result ≡ name_code thread count }
{
    4294967296 * thread as u64 + count as u64
}

/// The thread of a name word.
pub fn thread_of(name: u64) -> u32
    ensures { result ≡ thread_in name }
{
    (name / 4294967296) as u32
}

/// The count of a name word.
pub fn count_of(name: u64) -> u32
    ensures { result ≡ count_in name }
{
    (name % 4294967296) as u32
}

/// The word with which a mutator asks for an object of this shape word, to be its `count`th.
pub fn request_word(count: u32, shape: u64) -> u64
    requires { shape < 2 ^ 32 }
    ensures { result ≡ request_code count shape }
{
    4294967296 * count as u64 + shape
}

/// The count of the name that the asked object shall have.
pub fn request_count(request: u64) -> u32
    ensures { result ≡ request_count_in request }
{
    (request / 4294967296) as u32
}

/// The shape word of the object that is asked for.
pub fn request_shape(request: u64) -> u64
    ensures { result ≡ request_shape_in request }
{
    request % 4294967296
}

/// A law: each reader gives back what its encoder was given.
pub fn readers_undo()
    ensures headers { HeadersUndo }
    ensures fillers { FillersUndo }
    ensures buffers { BuffersUndo }
    ensures shapes { ShapesUndo }
    ensures names { NamesUndo }
    ensures requests { RequestsUndo }
{}
