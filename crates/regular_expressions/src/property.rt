//! Properties in `\p{..}` (UnicodePropertyValueExpression of 22.2.1).

ghost use Rattle.std.specs.Prelude.{◌≡◌, Some, None, drop, option_map, take, IfSome, IfNone};
ghost use Rattle.source_text.specs.Source.{IsPlace};
ghost use Rattle.tokens.specs.Reading.{behind};
ghost use Rattle.tokens.specs.Scanned.{IsRun};
ghost use Rattle.regular_expressions.specs.PropertyNames.{behind_letter, is_lone_property, is_met, is_property, is_property_character, is_property_value, is_script, listed, property_name};
ghost use Rattle.regular_expressions.specs.Characters.{property};
ghost use Rattle.regular_expressions.specs.Scanned.{IsRead};

use tokens::char_at;

/// The binary properties and their aliases.
static BINARY_PROPERTIES: &str = "\
    ASCII ASCII_Hex_Digit AHex Alphabetic Alpha Any Assigned Bidi_Control Bidi_C Bidi_Mirrored Bidi_M\
    \x20Case_Ignorable CI Cased Changes_When_Casefolded CWCF Changes_When_Casemapped CWCM Changes_When_Lowercased CWL\
    \x20Changes_When_NFKC_Casefolded CWKCF Changes_When_Titlecased CWT Changes_When_Uppercased CWU Dash\
    \x20Default_Ignorable_Code_Point DI Deprecated Dep Diacritic Dia Emoji Emoji_Component EComp Emoji_Modifier EMod\
    \x20Emoji_Modifier_Base EBase Emoji_Presentation EPres Extended_Pictographic ExtPict Extender Ext Grapheme_Base\
    \x20Gr_Base Grapheme_Extend Gr_Ext Hex_Digit Hex IDS_Binary_Operator IDSB IDS_Trinary_Operator IDST ID_Continue\
    \x20IDC ID_Start IDS Ideographic Ideo Join_Control Join_C Logical_Order_Exception LOE Lowercase Lower Math\
    \x20Noncharacter_Code_Point NChar Pattern_Syntax Pat_Syn Pattern_White_Space Pat_WS Quotation_Mark QMark Radical\
    \x20Regional_Indicator RI Sentence_Terminal STerm Soft_Dotted SD Terminal_Punctuation Term Unified_Ideograph\
    \x20UIdeo Uppercase Upper Variation_Selector VS White_Space space XID_Continue XIDC XID_Start XIDS";

/// The values of General_Category.
static CATEGORIES: &str = "\
    Cased_Letter LC Close_Punctuation Pe Connector_Punctuation Pc Control Cc cntrl Currency_Symbol Sc\
    \x20Dash_Punctuation Pd Decimal_Number Nd digit Enclosing_Mark Me Final_Punctuation Pf Format Cf\
    \x20Initial_Punctuation Pi Letter L Letter_Number Nl Line_Separator Zl Lowercase_Letter Ll Mark M Combining_Mark\
    \x20Math_Symbol Sm Modifier_Letter Lm Modifier_Symbol Sk Nonspacing_Mark Mn Number N Open_Punctuation Ps Other C\
    \x20Other_Letter Lo Other_Number No Other_Punctuation Po Other_Symbol So Paragraph_Separator Zp Private_Use Co\
    \x20Punctuation P punct Separator Z Space_Separator Zs Spacing_Mark Mc Surrogate Cs Symbol S Titlecase_Letter Lt\
    \x20Unassigned Cn Uppercase_Letter Lu";

/// The values of Script and Script_Extensions, in three tables.
static SCRIPTS: &str = "\
    Adlam Adlm Ahom Anatolian_Hieroglyphs Hluw Arabic Arab Armenian Armn Avestan Avst Balinese Bali Bamum Bamu\
    \x20Bassa_Vah Bass Batak Batk Bengali Beng Bhaiksuki Bhks Bopomofo Bopo Brahmi Brah Braille Brai Buginese Bugi\
    \x20Buhid Buhd Canadian_Aboriginal Cans Carian Cari Caucasian_Albanian Aghb Chakma Cakm Cham Cherokee Cher\
    \x20Chorasmian Chrs Common Zyyy Coptic Copt Qaac Cuneiform Xsux Cypriot Cprt Cypro_Minoan Cpmn Cyrillic Cyrl\
    \x20Deseret Dsrt Devanagari Deva Dives_Akuru Diak Dogra Dogr Duployan Dupl Egyptian_Hieroglyphs Egyp Elbasan Elba\
    \x20Elymaic Elym Ethiopic Ethi Georgian Geor Glagolitic Glag Gothic Goth Grantha Gran Greek Grek Gujarati Gujr\
    \x20Gunjala_Gondi Gong Gurmukhi Guru Han Hani Hangul Hang Hanifi_Rohingya Rohg Hanunoo Hano Hatran Hatr Hebrew\
    \x20Hebr Hiragana Hira Imperial_Aramaic Armi Inherited Zinh Qaai Inscriptional_Pahlavi Phli\
    \x20Inscriptional_Parthian Prti Javanese Java";

/// The same.
static MORE_SCRIPTS: &str = "\
    Kaithi Kthi Kannada Knda Katakana Kana Kayah_Li Kali Kharoshthi Khar Khitan_Small_Script Kits Khmer Khmr\
    \x20Khojki Khoj Khudawadi Sind Lao Laoo Latin Latn Lepcha Lepc Limbu Limb Linear_A Lina Linear_B Linb Lisu Lycian\
    \x20Lyci Lydian Lydi Mahajani Mahj Makasar Maka Malayalam Mlym Mandaic Mand Manichaean Mani Marchen Marc\
    \x20Masaram_Gondi Gonm Medefaidrin Medf Meetei_Mayek Mtei Mende_Kikakui Mend Meroitic_Cursive Merc\
    \x20Meroitic_Hieroglyphs Mero Miao Plrd Modi Mongolian Mong Mro Mroo Multani Mult Myanmar Mymr Nabataean Nbat\
    \x20Nandinagari Nand New_Tai_Lue Talu Newa Nko Nkoo Nushu Nshu Nyiakeng_Puachue_Hmong Hmnp Ogham Ogam Ol_Chiki\
    \x20Olck Old_Hungarian Hung Old_Italic Ital Old_North_Arabian Narb Old_Permic Perm Old_Persian Xpeo Old_Sogdian\
    \x20Sogo Old_South_Arabian Sarb Old_Turkic Orkh Old_Uyghur Ougr Oriya Orya Osage Osge Osmanya Osma";

/// The same.
static LAST_SCRIPTS: &str = "\
    Pahawh_Hmong Hmng Palmyrene Palm Pau_Cin_Hau Pauc Phags_Pa Phag Phoenician Phnx Psalter_Pahlavi Phlp Rejang\
    \x20Rjng Runic Runr Samaritan Samr Saurashtra Saur Sharada Shrd Shavian Shaw Siddham Sidd SignWriting Sgnw\
    \x20Sinhala Sinh Sogdian Sogd Sora_Sompeng Sora Soyombo Soyo Sundanese Sund Syloti_Nagri Sylo Syriac Syrc Tagalog\
    \x20Tglg Tagbanwa Tagb Tai_Le Tale Tai_Tham Lana Tai_Viet Tavt Takri Takr Tamil Taml Tangsa Tnsa Tangut Tang\
    \x20Telugu Telu Thaana Thaa Thai Tibetan Tibt Tifinagh Tfng Tirhuta Tirh Toto Ugaritic Ugar Vai Vaii Vithkuqi\
    \x20Vith Wancho Wcho Warang_Citi Wara Yezidi Yezi Yi Yiii Zanabazar_Square Zanb\
    \x20Kawi Nag_Mundari Nagm Garay Gara Gurung_Khema Gukh Kirat_Rai Krai Ol_Onal Onao Sunuwar Sunu Todhri Todr\
    \x20Tulu_Tigalari Tutg Beria_Erfe Berf Sidetic Sidt Tai_Yo Tayo Tolong_Siki Tols";

/// Whether a list of words, with a space between two, has this word.
#[tactic(auto, using(crate::proofs::Words::list_begins, crate::proofs::Words::list_met, crate::proofs::Words::list_word, crate::proofs::Words::list_letter))]
fn lists(words: &str, word: &[u8]) -> bool
    ensures { result ≡ listed words.now word.now }
{
    let bytes = words.as_bytes();
    let mut met = Some(0usize);
    for index in 0..bytes.len() {
        if bytes[index] == b' ' {
            if is_met(met, word) {
                return true;
            }
            met = Some(0);
        } else {
            met = behind_letter(met, word, bytes[index]);
        }
    }
    is_met(met, word)
}

/// Whether so many letters are the whole word.
#[tactic(auto, using(crate::proofs::Words::dropped, crate::proofs::Words::not_dropped))]
fn is_met(met: Option<usize>, word: &[u8]) -> bool
    ensures { result ≡ is_met (option_map (λ m. drop m word.now) met) }
{
    match met {
        Some(count) => count >= word.len(),
        None => false,
    }
}

/// How many letters of the word are met behind one more.
fn behind_letter(met: Option<usize>, word: &[u8], letter: u8) -> Option<usize>
    ensures { option_map (λ m. drop m word.now) result ≡ behind_letter letter (option_map (λ m. drop m word.now) met) }
{
    let Some(count) = met else {
        return None;
    };
    if count < word.len() && word[count] == letter {
        return Some(count + 1);
    }
    None
}

/// Whether the word is the name of a script.
fn is_script(word: &[u8]) -> bool
    ensures { result ≡ is_script word.now }
{
    lists(SCRIPTS, word) || lists(MORE_SCRIPTS, word) || lists(LAST_SCRIPTS, word)
}

/// Whether the word is a binary property or a category.
fn is_lone_property(word: &[u8]) -> bool
    ensures { result ≡ is_lone_property word.now }
{
    lists(BINARY_PROPERTIES, word) || lists(CATEGORIES, word)
}

/// Whether the value is one of the property's.
fn is_property_value(name: &[u8], value: &[u8]) -> bool
    ensures { result ≡ is_property_value name.now value.now }
{
    if lists("General_Category gc", name) {
        return lists(CATEGORIES, value);
    }
    lists("Script sc Script_Extensions scx", name) && is_script(value)
}

/// How many bytes stand before the first `=`.
#[tactic(auto, using(crate::proofs::Words::name_found, crate::proofs::Words::name_whole, crate::proofs::Words::name_more))]
fn name_length(word: &[u8]) -> usize
    ensures { take result word.now ≡ property_name word.now }
{
    for index in 0..word.len() {
        if word[index] == b'=' {
            return index;
        }
    }
    word.len()
}

/// Whether the word is a property.
fn is_property(word: &[u8]) -> bool
    ensures { result ≡ is_property word.now }
{
    let length = name_length(word);
    if length >= word.len() {
        return is_lone_property(word);
    }
    is_property_value(&word[..length], &word[length + 1..])
}

/// Whether the character may stand in a property.
fn is_property_character(c: char) -> bool
    ensures { result ≡ is_property_character c }
{
    matches!(c, 'a'..='z' | 'A'..='Z' | '0'..='9' | '_' | '=')
}

/// Where the characters of a property end, in bytes.
fn property_end(text: &str, at: usize) -> usize
    requires { IsPlace text.now at }
    ensures { IsRun is_property_character text.now at result }
{
    let mut end = at;
    while let Some(step) = char_at(text, end) {
        if !is_property_character(step.c) {
            return end;
        }
        end = step.end;
    }
    end
}

/// `{`, a property and `}`: the place behind them.
pub(crate) fn property(text: &str, at: usize) -> Option<usize>
    requires { IsPlace text.now at }
    ensures some { IfSome result (λ e. IsRead (property (behind text.now at)) None text.now at e) }
    ensures none { IfNone result (property (behind text.now at) ≡ None) }
{
    let Some(brace) = char_at(text, at) else {
        return None;
    };
    if brace.c != '{' {
        return None;
    }
    let end = property_end(text, brace.end);
    let Some(close) = char_at(text, end) else {
        return None;
    };
    if close.c != '}' || !is_property(&text.as_bytes()[brace.end..end]) {
        return None;
    }
    Some(close.end)
}
