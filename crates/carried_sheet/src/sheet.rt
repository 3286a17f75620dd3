// Written by samples/carry from samples/usfm.sty.

pub(crate) const SHEET: &str =
    r#"# The markers of USFM 3.0, in the order of the standard's pages: of what type each is, which mark ends it, and what it
# may stand under. What each is for is said in this project's own words.
#
# - OccursUnder names what may be around a marker. It is checked of characters and notes: a note stands in one of these
#   paragraphs, and a character in one of these paragraphs or notes; or in another character, where that one is named
#   or NEST is. Of paragraphs and milestones it is not checked, and stands here for the reader.
# - TextType is VerseText where a paragraph's text is Scripture, which is searched and whose words are listed.
# - A marker that has levels is listed with as many as books use; without a number it is the first one.
# - Markers that begin with z are a team's own. Yours can be added in the same form.

# ---------------------------------------------------------------------------
# Identification

\Marker id
\Name id - Book: its code, and what the file is
\StyleType Paragraph
\TextType Other

\Marker usfm
\Name usfm - Version of USFM that the file is written in
\OccursUnder id
\StyleType Paragraph
\TextType Other

\Marker ide
\Name ide - Encoding of the file's characters
\OccursUnder id
\StyleType Paragraph
\TextType Other

\Marker sts
\Name sts - State of the work, as the team counts it
\OccursUnder id c
\StyleType Paragraph
\TextType Other

\Marker rem
\Name rem - Remark of the translators, not to be published
\OccursUnder id c
\StyleType Paragraph
\TextType Other

\Marker h
\Name h - Running head of the pages
\OccursUnder id
\StyleType Paragraph
\TextType Other

\Marker h1
\Name h1 - Running head of any page (deprecated)
\OccursUnder id
\StyleType Paragraph
\TextType Other

\Marker h2
\Name h2 - Running head of left pages (deprecated)
\OccursUnder id
\StyleType Paragraph
\TextType Other

\Marker h3
\Name h3 - Running head of right pages (deprecated)
\OccursUnder id
\StyleType Paragraph
\TextType Other

\Marker toc1
\Name toc1 - Table of contents, long name of the book
\OccursUnder id
\StyleType Paragraph
\TextType Other

\Marker toc2
\Name toc2 - Table of contents, short name of the book
\OccursUnder id
\StyleType Paragraph
\TextType Other

\Marker toc3
\Name toc3 - Table of contents, abbreviation of the book
\OccursUnder id
\StyleType Paragraph
\TextType Other

\Marker toca1
\Name toca1 - Table of contents in another language, long name of the book
\OccursUnder id
\StyleType Paragraph
\TextType Other

\Marker toca2
\Name toca2 - Table of contents in another language, short name of the book
\OccursUnder id
\StyleType Paragraph
\TextType Other

\Marker toca3
\Name toca3 - Table of contents in another language, abbreviation of the book
\OccursUnder id
\StyleType Paragraph
\TextType Other

# ---------------------------------------------------------------------------
# Introductions

\Marker imt
\Name imt - Title of an introduction
\OccursUnder id periph
\StyleType Paragraph
\TextType Other

\Marker imt1
\Name imt1 - Title of an introduction, first level
\OccursUnder id periph
\StyleType Paragraph
\TextType Other

\Marker imt2
\Name imt2 - Title of an introduction, second level
\OccursUnder id periph
\StyleType Paragraph
\TextType Other

\Marker imt3
\Name imt3 - Title of an introduction, third level
\OccursUnder id periph
\StyleType Paragraph
\TextType Other

\Marker imt4
\Name imt4 - Title of an introduction, fourth level
\OccursUnder id periph
\StyleType Paragraph
\TextType Other

\Marker is
\Name is - Heading of a section of an introduction
\OccursUnder id periph
\StyleType Paragraph
\TextType Other

\Marker is1
\Name is1 - Heading of a section of an introduction, first level
\OccursUnder id periph
\StyleType Paragraph
\TextType Other

\Marker is2
\Name is2 - Heading of a section of an introduction, second level
\OccursUnder id periph
\StyleType Paragraph
\TextType Other

\Marker ip
\Name ip - Paragraph of an introduction
\OccursUnder id periph
\StyleType Paragraph
\TextType Other

\Marker ipi
\Name ipi - Paragraph of an introduction, indented
\OccursUnder id periph
\StyleType Paragraph
\TextType Other

\Marker im
\Name im - Paragraph of an introduction, without an indent of its first line
\OccursUnder id periph
\StyleType Paragraph
\TextType Other

\Marker imi
\Name imi - Paragraph of an introduction, indented, without more indent of its first line
\OccursUnder id periph
\StyleType Paragraph
\TextType Other

\Marker ipq
\Name ipq - Paragraph of an introduction that quotes the text
\OccursUnder id periph
\StyleType Paragraph
\TextType Other

\Marker imq
\Name imq - Paragraph of an introduction that quotes the text, without an indent of its first line
\OccursUnder id periph
\StyleType Paragraph
\TextType Other

\Marker ipr
\Name ipr - Paragraph of an introduction, at the right
\OccursUnder id periph
\StyleType Paragraph
\TextType Other

\Marker iq
\Name iq - Poetry in an introduction
\OccursUnder id periph
\StyleType Paragraph
\TextType Other

\Marker iq1
\Name iq1 - Poetry in an introduction, first level
\OccursUnder id periph
\StyleType Paragraph
\TextType Other

\Marker iq2
\Name iq2 - Poetry in an introduction, second level
\OccursUnder id periph
\StyleType Paragraph
\TextType Other

\Marker iq3
\Name iq3 - Poetry in an introduction, third level
\OccursUnder id periph
\StyleType Paragraph
\TextType Other

\Marker ib
\Name ib - Blank line in an introduction
\OccursUnder id periph
\StyleType Paragraph
\TextType Other

\Marker ili
\Name ili - Item of a list in an introduction
\OccursUnder id periph
\StyleType Paragraph
\TextType Other

\Marker ili1
\Name ili1 - Item of a list in an introduction, first level
\OccursUnder id periph
\StyleType Paragraph
\TextType Other

\Marker ili2
\Name ili2 - Item of a list in an introduction, second level
\OccursUnder id periph
\StyleType Paragraph
\TextType Other

\Marker iot
\Name iot - Title of an outline
\OccursUnder id periph
\StyleType Paragraph
\TextType Other

\Marker io
\Name io - Entry of an outline
\OccursUnder id periph
\StyleType Paragraph
\TextType Other

\Marker io1
\Name io1 - Entry of an outline, first level
\OccursUnder id periph
\StyleType Paragraph
\TextType Other

\Marker io2
\Name io2 - Entry of an outline, second level
\OccursUnder id periph
\StyleType Paragraph
\TextType Other

\Marker io3
\Name io3 - Entry of an outline, third level
\OccursUnder id periph
\StyleType Paragraph
\TextType Other

\Marker io4
\Name io4 - Entry of an outline, fourth level
\OccursUnder id periph
\StyleType Paragraph
\TextType Other

\Marker ior
\Endmarker ior*
\Name ior...ior* - Verses that an entry of an outline is about
\OccursUnder NEST io io1 io2 io3 io4
\StyleType Character
\TextType Other

\Marker iqt
\Endmarker iqt*
\Name iqt...iqt* - Words of Scripture quoted in an introduction
\OccursUnder NEST imt imt1 imt2 imt3 imt4 is is1 is2 ip ipi im imi ipq imq ipr iq iq1 iq2 iq3 ili ili1 ili2 iot io io1 io2 io3 io4 iex imte imte1 imte2
\StyleType Character
\TextType Other

\Marker iex
\Name iex - Words that lead from one part to the next, or explain
\OccursUnder id c periph
\StyleType Paragraph
\TextType Other

\Marker imte
\Name imte - Title at the end of an introduction
\OccursUnder id periph
\StyleType Paragraph
\TextType Other

\Marker imte1
\Name imte1 - Title at the end of an introduction, first level
\OccursUnder id periph
\StyleType Paragraph
\TextType Other

\Marker imte2
\Name imte2 - Title at the end of an introduction, second level
\OccursUnder id periph
\StyleType Paragraph
\TextType Other

\Marker ie
\Name ie - End of an introduction
\OccursUnder id periph
\StyleType Paragraph
\TextType Other

# ---------------------------------------------------------------------------
# Titles, headings and labels

\Marker mt
\Name mt - Title of the book
\OccursUnder id
\StyleType Paragraph
\TextType Title

\Marker mt1
\Name mt1 - Title of the book, first line
\OccursUnder id
\StyleType Paragraph
\TextType Title

\Marker mt2
\Name mt2 - Title of the book, second line
\OccursUnder id
\StyleType Paragraph
\TextType Title

\Marker mt3
\Name mt3 - Title of the book, third line
\OccursUnder id
\StyleType Paragraph
\TextType Title

\Marker mt4
\Name mt4 - Title of the book, fourth line
\OccursUnder id
\StyleType Paragraph
\TextType Title

\Marker mte
\Name mte - Title of the book, at its end
\OccursUnder c
\StyleType Paragraph
\TextType Title

\Marker mte1
\Name mte1 - Title of the book, at its end, first line
\OccursUnder c
\StyleType Paragraph
\TextType Title

\Marker mte2
\Name mte2 - Title of the book, at its end, second line
\OccursUnder c
\StyleType Paragraph
\TextType Title

\Marker ms
\Name ms - Heading of a division of the book
\OccursUnder id c periph esb
\StyleType Paragraph
\TextType Section

\Marker ms1
\Name ms1 - Heading of a division of the book, first level
\OccursUnder id c periph esb
\StyleType Paragraph
\TextType Section

\Marker ms2
\Name ms2 - Heading of a division of the book, second level
\OccursUnder id c periph esb
\StyleType Paragraph
\TextType Section

\Marker ms3
\Name ms3 - Heading of a division of the book, third level
\OccursUnder id c periph esb
\StyleType Paragraph
\TextType Section

\Marker mr
\Name mr - Verses that a division is about
\OccursUnder ms ms1 ms2 ms3
\StyleType Paragraph
\TextType Section

\Marker s
\Name s - Heading of a section
\OccursUnder id c periph esb
\StyleType Paragraph
\TextType Section

\Marker s1
\Name s1 - Heading of a section, first level
\OccursUnder id c periph esb
\StyleType Paragraph
\TextType Section

\Marker s2
\Name s2 - Heading of a section, second level
\OccursUnder id c periph esb
\StyleType Paragraph
\TextType Section

\Marker s3
\Name s3 - Heading of a section, third level
\OccursUnder id c periph esb
\StyleType Paragraph
\TextType Section

\Marker s4
\Name s4 - Heading of a section, fourth level
\OccursUnder id c periph esb
\StyleType Paragraph
\TextType Section

\Marker s5
\Name s5 - Heading of a section, fifth level
\OccursUnder id c periph esb
\StyleType Paragraph
\TextType Section

\Marker sr
\Name sr - Verses that a section is about
\OccursUnder s s1 s2 s3 s4 s5
\StyleType Paragraph
\TextType Section

\Marker r
\Name r - Passages that are parallel to a section
\OccursUnder c ms ms1 ms2 ms3 s s1 s2 s3 s4 s5
\StyleType Paragraph
\TextType Section

\Marker rq
\Endmarker rq*
\Name rq...rq* - Passage that a quotation is taken from
\OccursUnder NEST p m po pr cls pmo pm pmc pmr pi pi1 pi2 pi3 mi nb pc ph ph1 ph2 ph3 q q1 q2 q3 q4 qr qc qm qm1 qm2 qm3 qd lh li li1 li2 li3 li4 lf lim lim1 lim2 lim3 lim4 tr
\StyleType Character
\TextType Other

\Marker d
\Name d - Title of a psalm, as the Hebrew text has it
\OccursUnder c
\StyleType Paragraph
\TextType VerseText

\Marker sp
\Name sp - Who speaks, as in Job or the Song of Songs
\OccursUnder c
\StyleType Paragraph
\TextType Section

\Marker sd
\Name sd - Space between divisions of the text
\OccursUnder c
\StyleType Paragraph
\TextType Section

\Marker sd1
\Name sd1 - Space between divisions of the text, first level
\OccursUnder c
\StyleType Paragraph
\TextType Section

\Marker sd2
\Name sd2 - Space between divisions of the text, second level
\OccursUnder c
\StyleType Paragraph
\TextType Section

\Marker sd3
\Name sd3 - Space between divisions of the text, third level
\OccursUnder c
\StyleType Paragraph
\TextType Section

\Marker sd4
\Name sd4 - Space between divisions of the text, fourth level
\OccursUnder c
\StyleType Paragraph
\TextType Section

# ---------------------------------------------------------------------------
# Chapters and verses

\Marker c
\Name c - Number of a chapter
\OccursUnder id
\StyleType Paragraph
\TextType ChapterNumber

\Marker ca
\Endmarker ca*
\Name ca...ca* - Number of a chapter in another numbering
\OccursUnder c
\StyleType Character
\TextType Other

\Marker cl
\Name cl - Word beside chapters' numbers: before chapter 1 that of all, within a chapter its own
\OccursUnder id c
\StyleType Paragraph
\TextType Other

\Marker cp
\Name cp - Number of a chapter as it is to be published
\OccursUnder c
\StyleType Paragraph
\TextType Other

\Marker cd
\Name cd - What a chapter is about
\OccursUnder c
\StyleType Paragraph
\TextType Other

\Marker v
\Name v - Number of a verse, or of verses that stand as one
\OccursUnder p m po pr cls pmo pm pmc pmr pi pi1 pi2 pi3 mi nb pc ph ph1 ph2 ph3 q q1 q2 q3 q4 qr qc qm qm1 qm2 qm3 qd lh li li1 li2 li3 li4 lf lim lim1 lim2 lim3 lim4 tr d
\StyleType Character
\TextType VerseNumber

\Marker va
\Endmarker va*
\Name va...va* - Number of a verse in another numbering
\OccursUnder NEST p m po pr cls pmo pm pmc pmr pi pi1 pi2 pi3 mi nb pc ph ph1 ph2 ph3 q q1 q2 q3 q4 qr qc qm qm1 qm2 qm3 qd lh li li1 li2 li3 li4 lf lim lim1 lim2 lim3 lim4 tr d
\StyleType Character
\TextType Other

\Marker vp
\Endmarker vp*
\Name vp...vp* - Number of a verse as it is to be published
\OccursUnder NEST p m po pr cls pmo pm pmc pmr pi pi1 pi2 pi3 mi nb pc ph ph1 ph2 ph3 q q1 q2 q3 q4 qr qc qm qm1 qm2 qm3 qd lh li li1 li2 li3 li4 lf lim lim1 lim2 lim3 lim4 tr d
\StyleType Character
\TextType Other

# ---------------------------------------------------------------------------
# Paragraphs

\Marker p
\Name p - Paragraph
\OccursUnder id c periph esb
\StyleType Paragraph
\TextType VerseText

\Marker m
\Name m - Paragraph without an indent of its first line, as after poetry
\OccursUnder id c periph esb
\StyleType Paragraph
\TextType VerseText

\Marker po
\Name po - Opening of a letter
\OccursUnder id c periph esb
\StyleType Paragraph
\TextType VerseText

\Marker pr
\Name pr - Paragraph at the right (deprecated)
\OccursUnder id c periph esb
\StyleType Paragraph
\TextType VerseText

\Marker cls
\Name cls - Closing of a letter
\OccursUnder id c periph esb
\StyleType Paragraph
\TextType VerseText

\Marker pmo
\Name pmo - Opening of an embedded text, as of a letter that is quoted
\OccursUnder id c periph esb
\StyleType Paragraph
\TextType VerseText

\Marker pm
\Name pm - Paragraph of an embedded text
\OccursUnder id c periph esb
\StyleType Paragraph
\TextType VerseText

\Marker pmc
\Name pmc - Closing of an embedded text
\OccursUnder id c periph esb
\StyleType Paragraph
\TextType VerseText

\Marker pmr
\Name pmr - Refrain of an embedded text, what all are to answer
\OccursUnder id c periph esb
\StyleType Paragraph
\TextType VerseText

\Marker pi
\Name pi - Indented paragraph
\OccursUnder id c periph esb
\StyleType Paragraph
\TextType VerseText

\Marker pi1
\Name pi1 - Indented paragraph, first level
\OccursUnder id c periph esb
\StyleType Paragraph
\TextType VerseText

\Marker pi2
\Name pi2 - Indented paragraph, second level
\OccursUnder id c periph esb
\StyleType Paragraph
\TextType VerseText

\Marker pi3
\Name pi3 - Indented paragraph, third level
\OccursUnder id c periph esb
\StyleType Paragraph
\TextType VerseText

\Marker mi
\Name mi - Indented paragraph, without more indent of its first line
\OccursUnder id c periph esb
\StyleType Paragraph
\TextType VerseText

\Marker nb
\Name nb - Paragraph that goes on over the beginning of a chapter
\OccursUnder id c periph esb
\StyleType Paragraph
\TextType VerseText

\Marker pc
\Name pc - Centred paragraph, as of an inscription
\OccursUnder id c periph esb
\StyleType Paragraph
\TextType VerseText

\Marker ph
\Name ph - Paragraph with a hanging indent (deprecated)
\OccursUnder id c periph esb
\StyleType Paragraph
\TextType VerseText

\Marker ph1
\Name ph1 - Paragraph with a hanging indent (deprecated), first level
\OccursUnder id c periph esb
\StyleType Paragraph
\TextType VerseText

\Marker ph2
\Name ph2 - Paragraph with a hanging indent (deprecated), second level
\OccursUnder id c periph esb
\StyleType Paragraph
\TextType VerseText

\Marker ph3
\Name ph3 - Paragraph with a hanging indent (deprecated), third level
\OccursUnder id c periph esb
\StyleType Paragraph
\TextType VerseText

# ---------------------------------------------------------------------------
# Poetry

\Marker q
\Name q - Line of poetry
\OccursUnder id c periph esb
\StyleType Paragraph
\TextType VerseText

\Marker q1
\Name q1 - Line of poetry, first level
\OccursUnder id c periph esb
\StyleType Paragraph
\TextType VerseText

\Marker q2
\Name q2 - Line of poetry, second level
\OccursUnder id c periph esb
\StyleType Paragraph
\TextType VerseText

\Marker q3
\Name q3 - Line of poetry, third level
\OccursUnder id c periph esb
\StyleType Paragraph
\TextType VerseText

\Marker q4
\Name q4 - Line of poetry, fourth level
\OccursUnder id c periph esb
\StyleType Paragraph
\TextType VerseText

\Marker qr
\Name qr - Line of poetry, at the right
\OccursUnder id c periph esb
\StyleType Paragraph
\TextType VerseText

\Marker qc
\Name qc - Line of poetry, centred
\OccursUnder id c periph esb
\StyleType Paragraph
\TextType VerseText

\Marker qs
\Endmarker qs*
\Name qs...qs* - Selah
\OccursUnder NEST q q1 q2 q3 q4 qr qc qm qm1 qm2 qm3 qd
\StyleType Character
\TextType VerseText

\Marker qa
\Name qa - Heading of an acrostic, the name of a letter
\OccursUnder c
\StyleType Paragraph
\TextType Other

\Marker qac
\Endmarker qac*
\Name qac...qac* - Letter of an acrostic, within a line
\OccursUnder NEST q q1 q2 q3 q4 qr qc qm qm1 qm2 qm3
\StyleType Character
\TextType VerseText

\Marker qm
\Name qm - Line of poetry in an embedded text
\OccursUnder id c periph esb
\StyleType Paragraph
\TextType VerseText

\Marker qm1
\Name qm1 - Line of poetry in an embedded text, first level
\OccursUnder id c periph esb
\StyleType Paragraph
\TextType VerseText

\Marker qm2
\Name qm2 - Line of poetry in an embedded text, second level
\OccursUnder id c periph esb
\StyleType Paragraph
\TextType VerseText

\Marker qm3
\Name qm3 - Line of poetry in an embedded text, third level
\OccursUnder id c periph esb
\StyleType Paragraph
\TextType VerseText

\Marker qd
\Name qd - Note of the Hebrew text on how a poem is performed
\OccursUnder id c periph esb
\StyleType Paragraph
\TextType VerseText

\Marker b
\Name b - Blank line, as between stanzas; nothing stands in it
\OccursUnder id c periph esb
\StyleType Paragraph
\TextType VerseText

# ---------------------------------------------------------------------------
# Lists

\Marker lh
\Name lh - Words that a list begins with
\OccursUnder id c periph esb
\StyleType Paragraph
\TextType VerseText

\Marker li
\Name li - Item of a list
\OccursUnder id c periph esb
\StyleType Paragraph
\TextType VerseText

\Marker li1
\Name li1 - Item of a list, first level
\OccursUnder id c periph esb
\StyleType Paragraph
\TextType VerseText

\Marker li2
\Name li2 - Item of a list, second level
\OccursUnder id c periph esb
\StyleType Paragraph
\TextType VerseText

\Marker li3
\Name li3 - Item of a list, third level
\OccursUnder id c periph esb
\StyleType Paragraph
\TextType VerseText

\Marker li4
\Name li4 - Item of a list, fourth level
\OccursUnder id c periph esb
\StyleType Paragraph
\TextType VerseText

\Marker lf
\Name lf - Words that a list ends with
\OccursUnder id c periph esb
\StyleType Paragraph
\TextType VerseText

\Marker lim
\Name lim - Item of an embedded list
\OccursUnder id c periph esb
\StyleType Paragraph
\TextType VerseText

\Marker lim1
\Name lim1 - Item of an embedded list, first level
\OccursUnder id c periph esb
\StyleType Paragraph
\TextType VerseText

\Marker lim2
\Name lim2 - Item of an embedded list, second level
\OccursUnder id c periph esb
\StyleType Paragraph
\TextType VerseText

\Marker lim3
\Name lim3 - Item of an embedded list, third level
\OccursUnder id c periph esb
\StyleType Paragraph
\TextType VerseText

\Marker lim4
\Name lim4 - Item of an embedded list, fourth level
\OccursUnder id c periph esb
\StyleType Paragraph
\TextType VerseText

\Marker litl
\Endmarker litl*
\Name litl...litl* - Total of an item
\OccursUnder NEST li li1 li2 li3 li4 lim lim1 lim2 lim3 lim4
\StyleType Character
\TextType VerseText

\Marker lik
\Endmarker lik*
\Name lik...lik* - Key of an item, which its values belong to
\OccursUnder NEST li li1 li2 li3 li4 lim lim1 lim2 lim3 lim4
\StyleType Character
\TextType VerseText

\Marker liv
\Endmarker liv*
\Name liv...liv* - Value of an item
\OccursUnder NEST li li1 li2 li3 li4 lim lim1 lim2 lim3 lim4
\StyleType Character
\TextType VerseText

\Marker liv1
\Endmarker liv1*
\Name liv1...liv1* - Value of an item, first one
\OccursUnder NEST li li1 li2 li3 li4 lim lim1 lim2 lim3 lim4
\StyleType Character
\TextType VerseText

\Marker liv2
\Endmarker liv2*
\Name liv2...liv2* - Value of an item, second one
\OccursUnder NEST li li1 li2 li3 li4 lim lim1 lim2 lim3 lim4
\StyleType Character
\TextType VerseText

\Marker liv3
\Endmarker liv3*
\Name liv3...liv3* - Value of an item, third one
\OccursUnder NEST li li1 li2 li3 li4 lim lim1 lim2 lim3 lim4
\StyleType Character
\TextType VerseText

\Marker liv4
\Endmarker liv4*
\Name liv4...liv4* - Value of an item, fourth one
\OccursUnder NEST li li1 li2 li3 li4 lim lim1 lim2 lim3 lim4
\StyleType Character
\TextType VerseText

\Marker liv5
\Endmarker liv5*
\Name liv5...liv5* - Value of an item, fifth one
\OccursUnder NEST li li1 li2 li3 li4 lim lim1 lim2 lim3 lim4
\StyleType Character
\TextType VerseText

# ---------------------------------------------------------------------------
# Tables
# A cell ends where the next one begins. So it has no Endmarker, and what stands in it stands under the row.

\Marker tr
\Name tr - Row of a table
\OccursUnder id c periph esb
\StyleType Paragraph
\TextType VerseText

\Marker th1
\Name th1 - Head of a column, first column
\OccursUnder tr
\StyleType Character
\TextType VerseText

\Marker th2
\Name th2 - Head of a column, second column
\OccursUnder tr
\StyleType Character
\TextType VerseText

\Marker th3
\Name th3 - Head of a column, third column
\OccursUnder tr
\StyleType Character
\TextType VerseText

\Marker th4
\Name th4 - Head of a column, fourth column
\OccursUnder tr
\StyleType Character
\TextType VerseText

\Marker th5
\Name th5 - Head of a column, fifth column
\OccursUnder tr
\StyleType Character
\TextType VerseText

\Marker thr1
\Name thr1 - Head of a column, at the right, first column
\OccursUnder tr
\StyleType Character
\TextType VerseText

\Marker thr2
\Name thr2 - Head of a column, at the right, second column
\OccursUnder tr
\StyleType Character
\TextType VerseText

\Marker thr3
\Name thr3 - Head of a column, at the right, third column
\OccursUnder tr
\StyleType Character
\TextType VerseText

\Marker thr4
\Name thr4 - Head of a column, at the right, fourth column
\OccursUnder tr
\StyleType Character
\TextType VerseText

\Marker thr5
\Name thr5 - Head of a column, at the right, fifth column
\OccursUnder tr
\StyleType Character
\TextType VerseText

\Marker thc1
\Name thc1 - Head of a column, centred, first column
\OccursUnder tr
\StyleType Character
\TextType VerseText

\Marker thc2
\Name thc2 - Head of a column, centred, second column
\OccursUnder tr
\StyleType Character
\TextType VerseText

\Marker thc3
\Name thc3 - Head of a column, centred, third column
\OccursUnder tr
\StyleType Character
\TextType VerseText

\Marker thc4
\Name thc4 - Head of a column, centred, fourth column
\OccursUnder tr
\StyleType Character
\TextType VerseText

\Marker thc5
\Name thc5 - Head of a column, centred, fifth column
\OccursUnder tr
\StyleType Character
\TextType VerseText

\Marker tc1
\Name tc1 - Cell, first column
\OccursUnder tr
\StyleType Character
\TextType VerseText

\Marker tc2
\Name tc2 - Cell, second column
\OccursUnder tr
\StyleType Character
\TextType VerseText

\Marker tc3
\Name tc3 - Cell, third column
\OccursUnder tr
\StyleType Character
\TextType VerseText

\Marker tc4
\Name tc4 - Cell, fourth column
\OccursUnder tr
\StyleType Character
\TextType VerseText

\Marker tc5
\Name tc5 - Cell, fifth column
\OccursUnder tr
\StyleType Character
\TextType VerseText

\Marker tcr1
\Name tcr1 - Cell, at the right, first column
\OccursUnder tr
\StyleType Character
\TextType VerseText

\Marker tcr2
\Name tcr2 - Cell, at the right, second column
\OccursUnder tr
\StyleType Character
\TextType VerseText

\Marker tcr3
\Name tcr3 - Cell, at the right, third column
\OccursUnder tr
\StyleType Character
\TextType VerseText

\Marker tcr4
\Name tcr4 - Cell, at the right, fourth column
\OccursUnder tr
\StyleType Character
\TextType VerseText

\Marker tcr5
\Name tcr5 - Cell, at the right, fifth column
\OccursUnder tr
\StyleType Character
\TextType VerseText

\Marker tcc1
\Name tcc1 - Cell, centred, first column
\OccursUnder tr
\StyleType Character
\TextType VerseText

\Marker tcc2
\Name tcc2 - Cell, centred, second column
\OccursUnder tr
\StyleType Character
\TextType VerseText

\Marker tcc3
\Name tcc3 - Cell, centred, third column
\OccursUnder tr
\StyleType Character
\TextType VerseText

\Marker tcc4
\Name tcc4 - Cell, centred, fourth column
\OccursUnder tr
\StyleType Character
\TextType VerseText

\Marker tcc5
\Name tcc5 - Cell, centred, fifth column
\OccursUnder tr
\StyleType Character
\TextType VerseText

# Cells that span columns, from the one number to the other.

\Marker th1-2
\Name th1-2 - Head of a column, columns 1 to 2
\OccursUnder tr
\StyleType Character
\TextType VerseText

\Marker th1-3
\Name th1-3 - Head of a column, columns 1 to 3
\OccursUnder tr
\StyleType Character
\TextType VerseText

\Marker th1-4
\Name th1-4 - Head of a column, columns 1 to 4
\OccursUnder tr
\StyleType Character
\TextType VerseText

\Marker th1-5
\Name th1-5 - Head of a column, columns 1 to 5
\OccursUnder tr
\StyleType Character
\TextType VerseText

\Marker th2-3
\Name th2-3 - Head of a column, columns 2 to 3
\OccursUnder tr
\StyleType Character
\TextType VerseText

\Marker th2-4
\Name th2-4 - Head of a column, columns 2 to 4
\OccursUnder tr
\StyleType Character
\TextType VerseText

\Marker th2-5
\Name th2-5 - Head of a column, columns 2 to 5
\OccursUnder tr
\StyleType Character
\TextType VerseText

\Marker th3-4
\Name th3-4 - Head of a column, columns 3 to 4
\OccursUnder tr
\StyleType Character
\TextType VerseText

\Marker th3-5
\Name th3-5 - Head of a column, columns 3 to 5
\OccursUnder tr
\StyleType Character
\TextType VerseText

\Marker th4-5
\Name th4-5 - Head of a column, columns 4 to 5
\OccursUnder tr
\StyleType Character
\TextType VerseText

\Marker thr1-2
\Name thr1-2 - Head of a column, at the right, columns 1 to 2
\OccursUnder tr
\StyleType Character
\TextType VerseText

\Marker thr1-3
\Name thr1-3 - Head of a column, at the right, columns 1 to 3
\OccursUnder tr
\StyleType Character
\TextType VerseText

\Marker thr1-4
\Name thr1-4 - Head of a column, at the right, columns 1 to 4
\OccursUnder tr
\StyleType Character
\TextType VerseText

\Marker thr1-5
\Name thr1-5 - Head of a column, at the right, columns 1 to 5
\OccursUnder tr
\StyleType Character
\TextType VerseText

\Marker thr2-3
\Name thr2-3 - Head of a column, at the right, columns 2 to 3
\OccursUnder tr
\StyleType Character
\TextType VerseText

\Marker thr2-4
\Name thr2-4 - Head of a column, at the right, columns 2 to 4
\OccursUnder tr
\StyleType Character
\TextType VerseText

\Marker thr2-5
\Name thr2-5 - Head of a column, at the right, columns 2 to 5
\OccursUnder tr
\StyleType Character
\TextType VerseText

\Marker thr3-4
\Name thr3-4 - Head of a column, at the right, columns 3 to 4
\OccursUnder tr
\StyleType Character
\TextType VerseText

\Marker thr3-5
\Name thr3-5 - Head of a column, at the right, columns 3 to 5
\OccursUnder tr
\StyleType Character
\TextType VerseText

\Marker thr4-5
\Name thr4-5 - Head of a column, at the right, columns 4 to 5
\OccursUnder tr
\StyleType Character
\TextType VerseText

\Marker thc1-2
\Name thc1-2 - Head of a column, centred, columns 1 to 2
\OccursUnder tr
\StyleType Character
\TextType VerseText

\Marker thc1-3
\Name thc1-3 - Head of a column, centred, columns 1 to 3
\OccursUnder tr
\StyleType Character
\TextType VerseText

\Marker thc1-4
\Name thc1-4 - Head of a column, centred, columns 1 to 4
\OccursUnder tr
\StyleType Character
\TextType VerseText

\Marker thc1-5
\Name thc1-5 - Head of a column, centred, columns 1 to 5
\OccursUnder tr
\StyleType Character
\TextType VerseText

\Marker thc2-3
\Name thc2-3 - Head of a column, centred, columns 2 to 3
\OccursUnder tr
\StyleType Character
\TextType VerseText

\Marker thc2-4
\Name thc2-4 - Head of a column, centred, columns 2 to 4
\OccursUnder tr
\StyleType Character
\TextType VerseText

\Marker thc2-5
\Name thc2-5 - Head of a column, centred, columns 2 to 5
\OccursUnder tr
\StyleType Character
\TextType VerseText

\Marker thc3-4
\Name thc3-4 - Head of a column, centred, columns 3 to 4
\OccursUnder tr
\StyleType Character
\TextType VerseText

\Marker thc3-5
\Name thc3-5 - Head of a column, centred, columns 3 to 5
\OccursUnder tr
\StyleType Character
\TextType VerseText

\Marker thc4-5
\Name thc4-5 - Head of a column, centred, columns 4 to 5
\OccursUnder tr
\StyleType Character
\TextType VerseText

\Marker tc1-2
\Name tc1-2 - Cell, columns 1 to 2
\OccursUnder tr
\StyleType Character
\TextType VerseText

\Marker tc1-3
\Name tc1-3 - Cell, columns 1 to 3
\OccursUnder tr
\StyleType Character
\TextType VerseText

\Marker tc1-4
\Name tc1-4 - Cell, columns 1 to 4
\OccursUnder tr
\StyleType Character
\TextType VerseText

\Marker tc1-5
\Name tc1-5 - Cell, columns 1 to 5
\OccursUnder tr
\StyleType Character
\TextType VerseText

\Marker tc2-3
\Name tc2-3 - Cell, columns 2 to 3
\OccursUnder tr
\StyleType Character
\TextType VerseText

\Marker tc2-4
\Name tc2-4 - Cell, columns 2 to 4
\OccursUnder tr
\StyleType Character
\TextType VerseText

\Marker tc2-5
\Name tc2-5 - Cell, columns 2 to 5
\OccursUnder tr
\StyleType Character
\TextType VerseText

\Marker tc3-4
\Name tc3-4 - Cell, columns 3 to 4
\OccursUnder tr
\StyleType Character
\TextType VerseText

\Marker tc3-5
\Name tc3-5 - Cell, columns 3 to 5
\OccursUnder tr
\StyleType Character
\TextType VerseText

\Marker tc4-5
\Name tc4-5 - Cell, columns 4 to 5
\OccursUnder tr
\StyleType Character
\TextType VerseText

\Marker tcr1-2
\Name tcr1-2 - Cell, at the right, columns 1 to 2
\OccursUnder tr
\StyleType Character
\TextType VerseText

\Marker tcr1-3
\Name tcr1-3 - Cell, at the right, columns 1 to 3
\OccursUnder tr
\StyleType Character
\TextType VerseText

\Marker tcr1-4
\Name tcr1-4 - Cell, at the right, columns 1 to 4
\OccursUnder tr
\StyleType Character
\TextType VerseText

\Marker tcr1-5
\Name tcr1-5 - Cell, at the right, columns 1 to 5
\OccursUnder tr
\StyleType Character
\TextType VerseText

\Marker tcr2-3
\Name tcr2-3 - Cell, at the right, columns 2 to 3
\OccursUnder tr
\StyleType Character
\TextType VerseText

\Marker tcr2-4
\Name tcr2-4 - Cell, at the right, columns 2 to 4
\OccursUnder tr
\StyleType Character
\TextType VerseText

\Marker tcr2-5
\Name tcr2-5 - Cell, at the right, columns 2 to 5
\OccursUnder tr
\StyleType Character
\TextType VerseText

\Marker tcr3-4
\Name tcr3-4 - Cell, at the right, columns 3 to 4
\OccursUnder tr
\StyleType Character
\TextType VerseText

\Marker tcr3-5
\Name tcr3-5 - Cell, at the right, columns 3 to 5
\OccursUnder tr
\StyleType Character
\TextType VerseText

\Marker tcr4-5
\Name tcr4-5 - Cell, at the right, columns 4 to 5
\OccursUnder tr
\StyleType Character
\TextType VerseText

\Marker tcc1-2
\Name tcc1-2 - Cell, centred, columns 1 to 2
\OccursUnder tr
\StyleType Character
\TextType VerseText

\Marker tcc1-3
\Name tcc1-3 - Cell, centred, columns 1 to 3
\OccursUnder tr
\StyleType Character
\TextType VerseText

\Marker tcc1-4
\Name tcc1-4 - Cell, centred, columns 1 to 4
\OccursUnder tr
\StyleType Character
\TextType VerseText

\Marker tcc1-5
\Name tcc1-5 - Cell, centred, columns 1 to 5
\OccursUnder tr
\StyleType Character
\TextType VerseText

\Marker tcc2-3
\Name tcc2-3 - Cell, centred, columns 2 to 3
\OccursUnder tr
\StyleType Character
\TextType VerseText

\Marker tcc2-4
\Name tcc2-4 - Cell, centred, columns 2 to 4
\OccursUnder tr
\StyleType Character
\TextType VerseText

\Marker tcc2-5
\Name tcc2-5 - Cell, centred, columns 2 to 5
\OccursUnder tr
\StyleType Character
\TextType VerseText

\Marker tcc3-4
\Name tcc3-4 - Cell, centred, columns 3 to 4
\OccursUnder tr
\StyleType Character
\TextType VerseText

\Marker tcc3-5
\Name tcc3-5 - Cell, centred, columns 3 to 5
\OccursUnder tr
\StyleType Character
\TextType VerseText

\Marker tcc4-5
\Name tcc4-5 - Cell, centred, columns 4 to 5
\OccursUnder tr
\StyleType Character
\TextType VerseText

# ---------------------------------------------------------------------------
# Footnotes

\Marker f
\Endmarker f*
\Name f...f* - Footnote
\OccursUnder p m po pr cls pmo pm pmc pmr pi pi1 pi2 pi3 mi nb pc ph ph1 ph2 ph3 q q1 q2 q3 q4 qr qc qm qm1 qm2 qm3 qd lh li li1 li2 li3 li4 lf lim lim1 lim2 lim3 lim4 tr mt mt1 mt2 mt3 mt4 mte mte1 mte2 ms ms1 ms2 ms3 mr s s1 s2 s3 s4 s5 sr r d sp cl cp cd qa lit imt imt1 imt2 imt3 imt4 is is1 is2 ip ipi im imi ipq imq ipr iq iq1 iq2 iq3 ili ili1 ili2 iot io io1 io2 io3 io4 iex imte imte1 imte2
\StyleType Note
\TextType NoteText

\Marker fe
\Endmarker fe*
\Name fe...fe* - Endnote
\OccursUnder p m po pr cls pmo pm pmc pmr pi pi1 pi2 pi3 mi nb pc ph ph1 ph2 ph3 q q1 q2 q3 q4 qr qc qm qm1 qm2 qm3 qd lh li li1 li2 li3 li4 lf lim lim1 lim2 lim3 lim4 tr mt mt1 mt2 mt3 mt4 mte mte1 mte2 ms ms1 ms2 ms3 mr s s1 s2 s3 s4 s5 sr r d sp cl cp cd qa lit imt imt1 imt2 imt3 imt4 is is1 is2 ip ipi im imi ipq imq ipr iq iq1 iq2 iq3 ili ili1 ili2 iot io io1 io2 io3 io4 iex imte imte1 imte2
\StyleType Note
\TextType NoteText

\Marker fr
\Endmarker fr*
\Name fr...fr* - Verse that a note is about
\OccursUnder f fe ef
\StyleType Character
\TextType NoteText

\Marker fq
\Endmarker fq*
\Name fq...fq* - Words of the translation that a note is about
\OccursUnder f fe ef
\StyleType Character
\TextType NoteText

\Marker fqa
\Endmarker fqa*
\Name fqa...fqa* - Other translation of these words
\OccursUnder f fe ef
\StyleType Character
\TextType NoteText

\Marker fk
\Endmarker fk*
\Name fk...fk* - Keyword of a note
\OccursUnder f fe ef
\StyleType Character
\TextType NoteText

\Marker fl
\Endmarker fl*
\Name fl...fl* - Label in a note, by which it is found
\OccursUnder f fe ef
\StyleType Character
\TextType NoteText

\Marker fw
\Endmarker fw*
\Name fw...fw* - Witnesses of a reading
\OccursUnder f fe ef
\StyleType Character
\TextType NoteText

\Marker fp
\Endmarker fp*
\Name fp...fp* - Further paragraph of a note
\OccursUnder f fe ef
\StyleType Character
\TextType NoteText

\Marker fv
\Endmarker fv*
\Name fv...fv* - Number of a verse in a note
\OccursUnder f fe ef fq fqa fk fl fw fp ft
\StyleType Character
\TextType NoteText

\Marker ft
\Endmarker ft*
\Name ft...ft* - Text of a note
\OccursUnder f fe ef
\StyleType Character
\TextType NoteText

\Marker fdc
\Endmarker fdc*
\Name fdc...fdc* - Text of a note only for an edition that has the deuterocanon (deprecated)
\OccursUnder f fe ef
\StyleType Character
\TextType NoteText

\Marker fm
\Endmarker fm*
\Name fm...fm* - Further caller of a footnote, in the text
\OccursUnder NEST p m po pr cls pmo pm pmc pmr pi pi1 pi2 pi3 mi nb pc ph ph1 ph2 ph3 q q1 q2 q3 q4 qr qc qm qm1 qm2 qm3 qd lh li li1 li2 li3 li4 lf lim lim1 lim2 lim3 lim4 tr mt mt1 mt2 mt3 mt4 mte mte1 mte2 ms ms1 ms2 ms3 mr s s1 s2 s3 s4 s5 sr r d sp cl cp cd qa lit imt imt1 imt2 imt3 imt4 is is1 is2 ip ipi im imi ipq imq ipr iq iq1 iq2 iq3 ili ili1 ili2 iot io io1 io2 io3 io4 iex imte imte1 imte2
\StyleType Character
\TextType Other

# ---------------------------------------------------------------------------
# Cross references

\Marker x
\Endmarker x*
\Name x...x* - Cross reference
\OccursUnder p m po pr cls pmo pm pmc pmr pi pi1 pi2 pi3 mi nb pc ph ph1 ph2 ph3 q q1 q2 q3 q4 qr qc qm qm1 qm2 qm3 qd lh li li1 li2 li3 li4 lf lim lim1 lim2 lim3 lim4 tr mt mt1 mt2 mt3 mt4 mte mte1 mte2 ms ms1 ms2 ms3 mr s s1 s2 s3 s4 s5 sr r d sp cl cp cd qa lit imt imt1 imt2 imt3 imt4 is is1 is2 ip ipi im imi ipq imq ipr iq iq1 iq2 iq3 ili ili1 ili2 iot io io1 io2 io3 io4 iex imte imte1 imte2
\StyleType Note
\TextType NoteText

\Marker xo
\Endmarker xo*
\Name xo...xo* - Verse that a cross reference is of
\OccursUnder x ex
\StyleType Character
\TextType NoteText

\Marker xop
\Endmarker xop*
\Name xop...xop* - This verse as it is to be published
\OccursUnder x ex
\StyleType Character
\TextType NoteText

\Marker xk
\Endmarker xk*
\Name xk...xk* - Keyword of a cross reference
\OccursUnder x ex
\StyleType Character
\TextType NoteText

\Marker xq
\Endmarker xq*
\Name xq...xq* - Words of the translation that a cross reference is about
\OccursUnder x ex
\StyleType Character
\TextType NoteText

\Marker xt
\Endmarker xt*
\Name xt...xt* - Passages referred to, in a note or in the text
\OccursUnder NEST p m po pr cls pmo pm pmc pmr pi pi1 pi2 pi3 mi nb pc ph ph1 ph2 ph3 q q1 q2 q3 q4 qr qc qm qm1 qm2 qm3 qd lh li li1 li2 li3 li4 lf lim lim1 lim2 lim3 lim4 tr mt mt1 mt2 mt3 mt4 mte mte1 mte2 ms ms1 ms2 ms3 mr s s1 s2 s3 s4 s5 sr r d sp cl cp cd qa lit imt imt1 imt2 imt3 imt4 is is1 is2 ip ipi im imi ipq imq ipr iq iq1 iq2 iq3 ili ili1 ili2 iot io io1 io2 io3 io4 iex imte imte1 imte2 f fe ef x ex
\StyleType Character
\TextType NoteText

\Marker xta
\Endmarker xta*
\Name xta...xta* - Words between passages referred to
\OccursUnder x ex xt
\StyleType Character
\TextType NoteText

\Marker xot
\Endmarker xot*
\Name xot...xot* - References only for an edition that has the Old Testament
\OccursUnder x ex xt
\StyleType Character
\TextType NoteText

\Marker xnt
\Endmarker xnt*
\Name xnt...xnt* - References only for an edition that has the New Testament
\OccursUnder x ex xt
\StyleType Character
\TextType NoteText

\Marker xdc
\Endmarker xdc*
\Name xdc...xdc* - References only for an edition that has the deuterocanon (deprecated)
\OccursUnder x ex xt
\StyleType Character
\TextType NoteText

# ---------------------------------------------------------------------------
# Words and characters

# Special text.

\Marker add
\Endmarker add*
\Name add...add* - Words that the translators added
\OccursUnder NEST p m po pr cls pmo pm pmc pmr pi pi1 pi2 pi3 mi nb pc ph ph1 ph2 ph3 q q1 q2 q3 q4 qr qc qm qm1 qm2 qm3 qd lh li li1 li2 li3 li4 lf lim lim1 lim2 lim3 lim4 tr mt mt1 mt2 mt3 mt4 mte mte1 mte2 ms ms1 ms2 ms3 mr s s1 s2 s3 s4 s5 sr r d sp cl cp cd qa lit imt imt1 imt2 imt3 imt4 is is1 is2 ip ipi im imi ipq imq ipr iq iq1 iq2 iq3 ili ili1 ili2 iot io io1 io2 io3 io4 iex imte imte1 imte2 f fe ef x ex
\StyleType Character
\TextType VerseText

\Marker bk
\Endmarker bk*
\Name bk...bk* - Title of a book that is quoted
\OccursUnder NEST p m po pr cls pmo pm pmc pmr pi pi1 pi2 pi3 mi nb pc ph ph1 ph2 ph3 q q1 q2 q3 q4 qr qc qm qm1 qm2 qm3 qd lh li li1 li2 li3 li4 lf lim lim1 lim2 lim3 lim4 tr mt mt1 mt2 mt3 mt4 mte mte1 mte2 ms ms1 ms2 ms3 mr s s1 s2 s3 s4 s5 sr r d sp cl cp cd qa lit imt imt1 imt2 imt3 imt4 is is1 is2 ip ipi im imi ipq imq ipr iq iq1 iq2 iq3 ili ili1 ili2 iot io io1 io2 io3 io4 iex imte imte1 imte2 f fe ef x ex
\StyleType Character
\TextType VerseText

\Marker dc
\Endmarker dc*
\Name dc...dc* - Words of the deuterocanon or the Septuagint within another book
\OccursUnder NEST p m po pr cls pmo pm pmc pmr pi pi1 pi2 pi3 mi nb pc ph ph1 ph2 ph3 q q1 q2 q3 q4 qr qc qm qm1 qm2 qm3 qd lh li li1 li2 li3 li4 lf lim lim1 lim2 lim3 lim4 tr mt mt1 mt2 mt3 mt4 mte mte1 mte2 ms ms1 ms2 ms3 mr s s1 s2 s3 s4 s5 sr r d sp cl cp cd qa lit imt imt1 imt2 imt3 imt4 is is1 is2 ip ipi im imi ipq imq ipr iq iq1 iq2 iq3 ili ili1 ili2 iot io io1 io2 io3 io4 iex imte imte1 imte2 f fe ef x ex
\StyleType Character
\TextType VerseText

\Marker k
\Endmarker k*
\Name k...k* - Keyword
\OccursUnder NEST p m po pr cls pmo pm pmc pmr pi pi1 pi2 pi3 mi nb pc ph ph1 ph2 ph3 q q1 q2 q3 q4 qr qc qm qm1 qm2 qm3 qd lh li li1 li2 li3 li4 lf lim lim1 lim2 lim3 lim4 tr mt mt1 mt2 mt3 mt4 mte mte1 mte2 ms ms1 ms2 ms3 mr s s1 s2 s3 s4 s5 sr r d sp cl cp cd qa lit imt imt1 imt2 imt3 imt4 is is1 is2 ip ipi im imi ipq imq ipr iq iq1 iq2 iq3 ili ili1 ili2 iot io io1 io2 io3 io4 iex imte imte1 imte2 f fe ef x ex
\StyleType Character
\TextType VerseText

\Marker lit
\Name lit - Words for the liturgy
\OccursUnder id c periph esb
\StyleType Paragraph
\TextType Other

\Marker nd
\Endmarker nd*
\Name nd...nd* - Name of God
\OccursUnder NEST p m po pr cls pmo pm pmc pmr pi pi1 pi2 pi3 mi nb pc ph ph1 ph2 ph3 q q1 q2 q3 q4 qr qc qm qm1 qm2 qm3 qd lh li li1 li2 li3 li4 lf lim lim1 lim2 lim3 lim4 tr mt mt1 mt2 mt3 mt4 mte mte1 mte2 ms ms1 ms2 ms3 mr s s1 s2 s3 s4 s5 sr r d sp cl cp cd qa lit imt imt1 imt2 imt3 imt4 is is1 is2 ip ipi im imi ipq imq ipr iq iq1 iq2 iq3 ili ili1 ili2 iot io io1 io2 io3 io4 iex imte imte1 imte2 f fe ef x ex
\StyleType Character
\TextType VerseText

\Marker ord
\Endmarker ord*
\Name ord...ord* - End of an ordinal number, as the st of 1st
\OccursUnder NEST p m po pr cls pmo pm pmc pmr pi pi1 pi2 pi3 mi nb pc ph ph1 ph2 ph3 q q1 q2 q3 q4 qr qc qm qm1 qm2 qm3 qd lh li li1 li2 li3 li4 lf lim lim1 lim2 lim3 lim4 tr mt mt1 mt2 mt3 mt4 mte mte1 mte2 ms ms1 ms2 ms3 mr s s1 s2 s3 s4 s5 sr r d sp cl cp cd qa lit imt imt1 imt2 imt3 imt4 is is1 is2 ip ipi im imi ipq imq ipr iq iq1 iq2 iq3 ili ili1 ili2 iot io io1 io2 io3 io4 iex imte imte1 imte2 f fe ef x ex
\StyleType Character
\TextType VerseText

\Marker pn
\Endmarker pn*
\Name pn...pn* - Proper name
\OccursUnder NEST p m po pr cls pmo pm pmc pmr pi pi1 pi2 pi3 mi nb pc ph ph1 ph2 ph3 q q1 q2 q3 q4 qr qc qm qm1 qm2 qm3 qd lh li li1 li2 li3 li4 lf lim lim1 lim2 lim3 lim4 tr mt mt1 mt2 mt3 mt4 mte mte1 mte2 ms ms1 ms2 ms3 mr s s1 s2 s3 s4 s5 sr r d sp cl cp cd qa lit imt imt1 imt2 imt3 imt4 is is1 is2 ip ipi im imi ipq imq ipr iq iq1 iq2 iq3 ili ili1 ili2 iot io io1 io2 io3 io4 iex imte imte1 imte2 f fe ef x ex
\StyleType Character
\TextType VerseText

\Marker png
\Endmarker png*
\Name png...png* - Name of a place
\OccursUnder NEST p m po pr cls pmo pm pmc pmr pi pi1 pi2 pi3 mi nb pc ph ph1 ph2 ph3 q q1 q2 q3 q4 qr qc qm qm1 qm2 qm3 qd lh li li1 li2 li3 li4 lf lim lim1 lim2 lim3 lim4 tr mt mt1 mt2 mt3 mt4 mte mte1 mte2 ms ms1 ms2 ms3 mr s s1 s2 s3 s4 s5 sr r d sp cl cp cd qa lit imt imt1 imt2 imt3 imt4 is is1 is2 ip ipi im imi ipq imq ipr iq iq1 iq2 iq3 ili ili1 ili2 iot io io1 io2 io3 io4 iex imte imte1 imte2 f fe ef x ex
\StyleType Character
\TextType VerseText

\Marker addpn
\Endmarker addpn*
\Name addpn...addpn* - Proper name within words that were added (deprecated)
\OccursUnder NEST p m po pr cls pmo pm pmc pmr pi pi1 pi2 pi3 mi nb pc ph ph1 ph2 ph3 q q1 q2 q3 q4 qr qc qm qm1 qm2 qm3 qd lh li li1 li2 li3 li4 lf lim lim1 lim2 lim3 lim4 tr mt mt1 mt2 mt3 mt4 mte mte1 mte2 ms ms1 ms2 ms3 mr s s1 s2 s3 s4 s5 sr r d sp cl cp cd qa lit imt imt1 imt2 imt3 imt4 is is1 is2 ip ipi im imi ipq imq ipr iq iq1 iq2 iq3 ili ili1 ili2 iot io io1 io2 io3 io4 iex imte imte1 imte2 f fe ef x ex
\StyleType Character
\TextType VerseText

\Marker qt
\Endmarker qt*
\Name qt...qt* - Words of the Old Testament quoted in the New
\OccursUnder NEST p m po pr cls pmo pm pmc pmr pi pi1 pi2 pi3 mi nb pc ph ph1 ph2 ph3 q q1 q2 q3 q4 qr qc qm qm1 qm2 qm3 qd lh li li1 li2 li3 li4 lf lim lim1 lim2 lim3 lim4 tr mt mt1 mt2 mt3 mt4 mte mte1 mte2 ms ms1 ms2 ms3 mr s s1 s2 s3 s4 s5 sr r d sp cl cp cd qa lit imt imt1 imt2 imt3 imt4 is is1 is2 ip ipi im imi ipq imq ipr iq iq1 iq2 iq3 ili ili1 ili2 iot io io1 io2 io3 io4 iex imte imte1 imte2 f fe ef x ex
\StyleType Character
\TextType VerseText

\Marker sig
\Endmarker sig*
\Name sig...sig* - Signature of who wrote a letter
\OccursUnder NEST p m po pr cls pmo pm pmc pmr pi pi1 pi2 pi3 mi nb pc ph ph1 ph2 ph3 q q1 q2 q3 q4 qr qc qm qm1 qm2 qm3 qd lh li li1 li2 li3 li4 lf lim lim1 lim2 lim3 lim4 tr mt mt1 mt2 mt3 mt4 mte mte1 mte2 ms ms1 ms2 ms3 mr s s1 s2 s3 s4 s5 sr r d sp cl cp cd qa lit imt imt1 imt2 imt3 imt4 is is1 is2 ip ipi im imi ipq imq ipr iq iq1 iq2 iq3 ili ili1 ili2 iot io io1 io2 io3 io4 iex imte imte1 imte2 f fe ef x ex
\StyleType Character
\TextType VerseText

\Marker sls
\Endmarker sls*
\Name sls...sls* - Words of a second language or another source
\OccursUnder NEST p m po pr cls pmo pm pmc pmr pi pi1 pi2 pi3 mi nb pc ph ph1 ph2 ph3 q q1 q2 q3 q4 qr qc qm qm1 qm2 qm3 qd lh li li1 li2 li3 li4 lf lim lim1 lim2 lim3 lim4 tr mt mt1 mt2 mt3 mt4 mte mte1 mte2 ms ms1 ms2 ms3 mr s s1 s2 s3 s4 s5 sr r d sp cl cp cd qa lit imt imt1 imt2 imt3 imt4 is is1 is2 ip ipi im imi ipq imq ipr iq iq1 iq2 iq3 ili ili1 ili2 iot io io1 io2 io3 io4 iex imte imte1 imte2 f fe ef x ex
\StyleType Character
\TextType VerseText

\Marker tl
\Endmarker tl*
\Name tl...tl* - Words kept in another language
\OccursUnder NEST p m po pr cls pmo pm pmc pmr pi pi1 pi2 pi3 mi nb pc ph ph1 ph2 ph3 q q1 q2 q3 q4 qr qc qm qm1 qm2 qm3 qd lh li li1 li2 li3 li4 lf lim lim1 lim2 lim3 lim4 tr mt mt1 mt2 mt3 mt4 mte mte1 mte2 ms ms1 ms2 ms3 mr s s1 s2 s3 s4 s5 sr r d sp cl cp cd qa lit imt imt1 imt2 imt3 imt4 is is1 is2 ip ipi im imi ipq imq ipr iq iq1 iq2 iq3 ili ili1 ili2 iot io io1 io2 io3 io4 iex imte imte1 imte2 f fe ef x ex
\StyleType Character
\TextType VerseText

\Marker wj
\Endmarker wj*
\Name wj...wj* - Words of Jesus
\OccursUnder NEST p m po pr cls pmo pm pmc pmr pi pi1 pi2 pi3 mi nb pc ph ph1 ph2 ph3 q q1 q2 q3 q4 qr qc qm qm1 qm2 qm3 qd lh li li1 li2 li3 li4 lf lim lim1 lim2 lim3 lim4 tr mt mt1 mt2 mt3 mt4 mte mte1 mte2 ms ms1 ms2 ms3 mr s s1 s2 s3 s4 s5 sr r d sp cl cp cd qa lit imt imt1 imt2 imt3 imt4 is is1 is2 ip ipi im imi ipq imq ipr iq iq1 iq2 iq3 ili ili1 ili2 iot io io1 io2 io3 io4 iex imte imte1 imte2 f fe ef x ex
\StyleType Character
\TextType VerseText

# How letters look.

\Marker em
\Endmarker em*
\Name em...em* - Emphasis
\OccursUnder NEST p m po pr cls pmo pm pmc pmr pi pi1 pi2 pi3 mi nb pc ph ph1 ph2 ph3 q q1 q2 q3 q4 qr qc qm qm1 qm2 qm3 qd lh li li1 li2 li3 li4 lf lim lim1 lim2 lim3 lim4 tr mt mt1 mt2 mt3 mt4 mte mte1 mte2 ms ms1 ms2 ms3 mr s s1 s2 s3 s4 s5 sr r d sp cl cp cd qa lit imt imt1 imt2 imt3 imt4 is is1 is2 ip ipi im imi ipq imq ipr iq iq1 iq2 iq3 ili ili1 ili2 iot io io1 io2 io3 io4 iex imte imte1 imte2 f fe ef x ex
\StyleType Character
\TextType VerseText

\Marker bd
\Endmarker bd*
\Name bd...bd* - Bold
\OccursUnder NEST p m po pr cls pmo pm pmc pmr pi pi1 pi2 pi3 mi nb pc ph ph1 ph2 ph3 q q1 q2 q3 q4 qr qc qm qm1 qm2 qm3 qd lh li li1 li2 li3 li4 lf lim lim1 lim2 lim3 lim4 tr mt mt1 mt2 mt3 mt4 mte mte1 mte2 ms ms1 ms2 ms3 mr s s1 s2 s3 s4 s5 sr r d sp cl cp cd qa lit imt imt1 imt2 imt3 imt4 is is1 is2 ip ipi im imi ipq imq ipr iq iq1 iq2 iq3 ili ili1 ili2 iot io io1 io2 io3 io4 iex imte imte1 imte2 f fe ef x ex
\StyleType Character
\TextType VerseText

\Marker it
\Endmarker it*
\Name it...it* - Italic
\OccursUnder NEST p m po pr cls pmo pm pmc pmr pi pi1 pi2 pi3 mi nb pc ph ph1 ph2 ph3 q q1 q2 q3 q4 qr qc qm qm1 qm2 qm3 qd lh li li1 li2 li3 li4 lf lim lim1 lim2 lim3 lim4 tr mt mt1 mt2 mt3 mt4 mte mte1 mte2 ms ms1 ms2 ms3 mr s s1 s2 s3 s4 s5 sr r d sp cl cp cd qa lit imt imt1 imt2 imt3 imt4 is is1 is2 ip ipi im imi ipq imq ipr iq iq1 iq2 iq3 ili ili1 ili2 iot io io1 io2 io3 io4 iex imte imte1 imte2 f fe ef x ex
\StyleType Character
\TextType VerseText

\Marker bdit
\Endmarker bdit*
\Name bdit...bdit* - Bold italic
\OccursUnder NEST p m po pr cls pmo pm pmc pmr pi pi1 pi2 pi3 mi nb pc ph ph1 ph2 ph3 q q1 q2 q3 q4 qr qc qm qm1 qm2 qm3 qd lh li li1 li2 li3 li4 lf lim lim1 lim2 lim3 lim4 tr mt mt1 mt2 mt3 mt4 mte mte1 mte2 ms ms1 ms2 ms3 mr s s1 s2 s3 s4 s5 sr r d sp cl cp cd qa lit imt imt1 imt2 imt3 imt4 is is1 is2 ip ipi im imi ipq imq ipr iq iq1 iq2 iq3 ili ili1 ili2 iot io io1 io2 io3 io4 iex imte imte1 imte2 f fe ef x ex
\StyleType Character
\TextType VerseText

\Marker no
\Endmarker no*
\Name no...no* - Normal, within letters that are not
\OccursUnder NEST p m po pr cls pmo pm pmc pmr pi pi1 pi2 pi3 mi nb pc ph ph1 ph2 ph3 q q1 q2 q3 q4 qr qc qm qm1 qm2 qm3 qd lh li li1 li2 li3 li4 lf lim lim1 lim2 lim3 lim4 tr mt mt1 mt2 mt3 mt4 mte mte1 mte2 ms ms1 ms2 ms3 mr s s1 s2 s3 s4 s5 sr r d sp cl cp cd qa lit imt imt1 imt2 imt3 imt4 is is1 is2 ip ipi im imi ipq imq ipr iq iq1 iq2 iq3 ili ili1 ili2 iot io io1 io2 io3 io4 iex imte imte1 imte2 f fe ef x ex
\StyleType Character
\TextType VerseText

\Marker sc
\Endmarker sc*
\Name sc...sc* - Small capitals
\OccursUnder NEST p m po pr cls pmo pm pmc pmr pi pi1 pi2 pi3 mi nb pc ph ph1 ph2 ph3 q q1 q2 q3 q4 qr qc qm qm1 qm2 qm3 qd lh li li1 li2 li3 li4 lf lim lim1 lim2 lim3 lim4 tr mt mt1 mt2 mt3 mt4 mte mte1 mte2 ms ms1 ms2 ms3 mr s s1 s2 s3 s4 s5 sr r d sp cl cp cd qa lit imt imt1 imt2 imt3 imt4 is is1 is2 ip ipi im imi ipq imq ipr iq iq1 iq2 iq3 ili ili1 ili2 iot io io1 io2 io3 io4 iex imte imte1 imte2 f fe ef x ex
\StyleType Character
\TextType VerseText

\Marker sup
\Endmarker sup*
\Name sup...sup* - Superscript
\OccursUnder NEST p m po pr cls pmo pm pmc pmr pi pi1 pi2 pi3 mi nb pc ph ph1 ph2 ph3 q q1 q2 q3 q4 qr qc qm qm1 qm2 qm3 qd lh li li1 li2 li3 li4 lf lim lim1 lim2 lim3 lim4 tr mt mt1 mt2 mt3 mt4 mte mte1 mte2 ms ms1 ms2 ms3 mr s s1 s2 s3 s4 s5 sr r d sp cl cp cd qa lit imt imt1 imt2 imt3 imt4 is is1 is2 ip ipi im imi ipq imq ipr iq iq1 iq2 iq3 ili ili1 ili2 iot io io1 io2 io3 io4 iex imte imte1 imte2 f fe ef x ex
\StyleType Character
\TextType VerseText

# Breaks.

\Marker pb
\Name pb - Break to a new page
\OccursUnder id c periph esb
\StyleType Paragraph
\TextType Other

# Figures, words for lists and glosses, and links.

\Marker fig
\Endmarker fig*
\Name fig...fig* - Figure, with its file, its size and its caption
\OccursUnder p m po pr cls pmo pm pmc pmr pi pi1 pi2 pi3 mi nb pc ph ph1 ph2 ph3 q q1 q2 q3 q4 qr qc qm qm1 qm2 qm3 qd lh li li1 li2 li3 li4 lf lim lim1 lim2 lim3 lim4 tr mt mt1 mt2 mt3 mt4 mte mte1 mte2 ms ms1 ms2 ms3 mr s s1 s2 s3 s4 s5 sr r d sp cl cp cd qa lit imt imt1 imt2 imt3 imt4 is is1 is2 ip ipi im imi ipq imq ipr iq iq1 iq2 iq3 ili ili1 ili2 iot io io1 io2 io3 io4 iex imte imte1 imte2
\StyleType Character
\TextType Other

\Marker ndx
\Endmarker ndx*
\Name ndx...ndx* - Entry of an index
\OccursUnder NEST p m po pr cls pmo pm pmc pmr pi pi1 pi2 pi3 mi nb pc ph ph1 ph2 ph3 q q1 q2 q3 q4 qr qc qm qm1 qm2 qm3 qd lh li li1 li2 li3 li4 lf lim lim1 lim2 lim3 lim4 tr mt mt1 mt2 mt3 mt4 mte mte1 mte2 ms ms1 ms2 ms3 mr s s1 s2 s3 s4 s5 sr r d sp cl cp cd qa lit imt imt1 imt2 imt3 imt4 is is1 is2 ip ipi im imi ipq imq ipr iq iq1 iq2 iq3 ili ili1 ili2 iot io io1 io2 io3 io4 iex imte imte1 imte2 f fe ef x ex
\StyleType Character
\TextType VerseText

\Marker rb
\Endmarker rb*
\Name rb...rb* - Word with a gloss above it
\OccursUnder NEST p m po pr cls pmo pm pmc pmr pi pi1 pi2 pi3 mi nb pc ph ph1 ph2 ph3 q q1 q2 q3 q4 qr qc qm qm1 qm2 qm3 qd lh li li1 li2 li3 li4 lf lim lim1 lim2 lim3 lim4 tr mt mt1 mt2 mt3 mt4 mte mte1 mte2 ms ms1 ms2 ms3 mr s s1 s2 s3 s4 s5 sr r d sp cl cp cd qa lit imt imt1 imt2 imt3 imt4 is is1 is2 ip ipi im imi ipq imq ipr iq iq1 iq2 iq3 ili ili1 ili2 iot io io1 io2 io3 io4 iex imte imte1 imte2 f fe ef x ex
\StyleType Character
\TextType VerseText

\Marker pro
\Endmarker pro*
\Name pro...pro* - Pronunciation of a word (deprecated)
\OccursUnder NEST p m po pr cls pmo pm pmc pmr pi pi1 pi2 pi3 mi nb pc ph ph1 ph2 ph3 q q1 q2 q3 q4 qr qc qm qm1 qm2 qm3 qd lh li li1 li2 li3 li4 lf lim lim1 lim2 lim3 lim4 tr mt mt1 mt2 mt3 mt4 mte mte1 mte2 ms ms1 ms2 ms3 mr s s1 s2 s3 s4 s5 sr r d sp cl cp cd qa lit imt imt1 imt2 imt3 imt4 is is1 is2 ip ipi im imi ipq imq ipr iq iq1 iq2 iq3 ili ili1 ili2 iot io io1 io2 io3 io4 iex imte imte1 imte2 f fe ef x ex
\StyleType Character
\TextType Other

\Marker w
\Endmarker w*
\Name w...w* - Word of the glossary
\OccursUnder NEST p m po pr cls pmo pm pmc pmr pi pi1 pi2 pi3 mi nb pc ph ph1 ph2 ph3 q q1 q2 q3 q4 qr qc qm qm1 qm2 qm3 qd lh li li1 li2 li3 li4 lf lim lim1 lim2 lim3 lim4 tr mt mt1 mt2 mt3 mt4 mte mte1 mte2 ms ms1 ms2 ms3 mr s s1 s2 s3 s4 s5 sr r d sp cl cp cd qa lit imt imt1 imt2 imt3 imt4 is is1 is2 ip ipi im imi ipq imq ipr iq iq1 iq2 iq3 ili ili1 ili2 iot io io1 io2 io3 io4 iex imte imte1 imte2 f fe ef x ex
\StyleType Character
\TextType VerseText

\Marker wg
\Endmarker wg*
\Name wg...wg* - Word of the list of Greek words
\OccursUnder NEST p m po pr cls pmo pm pmc pmr pi pi1 pi2 pi3 mi nb pc ph ph1 ph2 ph3 q q1 q2 q3 q4 qr qc qm qm1 qm2 qm3 qd lh li li1 li2 li3 li4 lf lim lim1 lim2 lim3 lim4 tr mt mt1 mt2 mt3 mt4 mte mte1 mte2 ms ms1 ms2 ms3 mr s s1 s2 s3 s4 s5 sr r d sp cl cp cd qa lit imt imt1 imt2 imt3 imt4 is is1 is2 ip ipi im imi ipq imq ipr iq iq1 iq2 iq3 ili ili1 ili2 iot io io1 io2 io3 io4 iex imte imte1 imte2 f fe ef x ex
\StyleType Character
\TextType VerseText

\Marker wh
\Endmarker wh*
\Name wh...wh* - Word of the list of Hebrew words
\OccursUnder NEST p m po pr cls pmo pm pmc pmr pi pi1 pi2 pi3 mi nb pc ph ph1 ph2 ph3 q q1 q2 q3 q4 qr qc qm qm1 qm2 qm3 qd lh li li1 li2 li3 li4 lf lim lim1 lim2 lim3 lim4 tr mt mt1 mt2 mt3 mt4 mte mte1 mte2 ms ms1 ms2 ms3 mr s s1 s2 s3 s4 s5 sr r d sp cl cp cd qa lit imt imt1 imt2 imt3 imt4 is is1 is2 ip ipi im imi ipq imq ipr iq iq1 iq2 iq3 ili ili1 ili2 iot io io1 io2 io3 io4 iex imte imte1 imte2 f fe ef x ex
\StyleType Character
\TextType VerseText

\Marker wa
\Endmarker wa*
\Name wa...wa* - Word of the list of Aramaic words
\OccursUnder NEST p m po pr cls pmo pm pmc pmr pi pi1 pi2 pi3 mi nb pc ph ph1 ph2 ph3 q q1 q2 q3 q4 qr qc qm qm1 qm2 qm3 qd lh li li1 li2 li3 li4 lf lim lim1 lim2 lim3 lim4 tr mt mt1 mt2 mt3 mt4 mte mte1 mte2 ms ms1 ms2 ms3 mr s s1 s2 s3 s4 s5 sr r d sp cl cp cd qa lit imt imt1 imt2 imt3 imt4 is is1 is2 ip ipi im imi ipq imq ipr iq iq1 iq2 iq3 ili ili1 ili2 iot io io1 io2 io3 io4 iex imte imte1 imte2 f fe ef x ex
\StyleType Character
\TextType VerseText

\Marker jmp
\Endmarker jmp*
\Name jmp...jmp* - Link, and what it leads to
\OccursUnder NEST p m po pr cls pmo pm pmc pmr pi pi1 pi2 pi3 mi nb pc ph ph1 ph2 ph3 q q1 q2 q3 q4 qr qc qm qm1 qm2 qm3 qd lh li li1 li2 li3 li4 lf lim lim1 lim2 lim3 lim4 tr mt mt1 mt2 mt3 mt4 mte mte1 mte2 ms ms1 ms2 ms3 mr s s1 s2 s3 s4 s5 sr r d sp cl cp cd qa lit imt imt1 imt2 imt3 imt4 is is1 is2 ip ipi im imi ipq imq ipr iq iq1 iq2 iq3 ili ili1 ili2 iot io io1 io2 io3 io4 iex imte imte1 imte2 f fe ef x ex
\StyleType Character
\TextType Other

# ---------------------------------------------------------------------------
# Milestones
# A mark \qt-s or \qt-e ends with a \* of its own; what stands between the two is text like any other.

\Marker qt-s
\Endmarker qt-e
\Name qt-s to qt-e - Words of a speaker
\OccursUnder p m po pr cls pmo pm pmc pmr pi pi1 pi2 pi3 mi nb pc ph ph1 ph2 ph3 q q1 q2 q3 q4 qr qc qm qm1 qm2 qm3 qd lh li li1 li2 li3 li4 lf lim lim1 lim2 lim3 lim4 tr d sp
\StyleType Milestone
\TextType Other

\Marker qt1-s
\Endmarker qt1-e
\Name qt1-s to qt1-e - Words of a speaker, first level
\OccursUnder p m po pr cls pmo pm pmc pmr pi pi1 pi2 pi3 mi nb pc ph ph1 ph2 ph3 q q1 q2 q3 q4 qr qc qm qm1 qm2 qm3 qd lh li li1 li2 li3 li4 lf lim lim1 lim2 lim3 lim4 tr d sp
\StyleType Milestone
\TextType Other

\Marker qt2-s
\Endmarker qt2-e
\Name qt2-s to qt2-e - Words of a speaker, second level
\OccursUnder p m po pr cls pmo pm pmc pmr pi pi1 pi2 pi3 mi nb pc ph ph1 ph2 ph3 q q1 q2 q3 q4 qr qc qm qm1 qm2 qm3 qd lh li li1 li2 li3 li4 lf lim lim1 lim2 lim3 lim4 tr d sp
\StyleType Milestone
\TextType Other

\Marker qt3-s
\Endmarker qt3-e
\Name qt3-s to qt3-e - Words of a speaker, third level
\OccursUnder p m po pr cls pmo pm pmc pmr pi pi1 pi2 pi3 mi nb pc ph ph1 ph2 ph3 q q1 q2 q3 q4 qr qc qm qm1 qm2 qm3 qd lh li li1 li2 li3 li4 lf lim lim1 lim2 lim3 lim4 tr d sp
\StyleType Milestone
\TextType Other

\Marker qt4-s
\Endmarker qt4-e
\Name qt4-s to qt4-e - Words of a speaker, fourth level
\OccursUnder p m po pr cls pmo pm pmc pmr pi pi1 pi2 pi3 mi nb pc ph ph1 ph2 ph3 q q1 q2 q3 q4 qr qc qm qm1 qm2 qm3 qd lh li li1 li2 li3 li4 lf lim lim1 lim2 lim3 lim4 tr d sp
\StyleType Milestone
\TextType Other

\Marker qt5-s
\Endmarker qt5-e
\Name qt5-s to qt5-e - Words of a speaker, fifth level
\OccursUnder p m po pr cls pmo pm pmc pmr pi pi1 pi2 pi3 mi nb pc ph ph1 ph2 ph3 q q1 q2 q3 q4 qr qc qm qm1 qm2 qm3 qd lh li li1 li2 li3 li4 lf lim lim1 lim2 lim3 lim4 tr d sp
\StyleType Milestone
\TextType Other

\Marker ts-s
\Endmarker ts-e
\Name ts-s to ts-e - Section that the translators work on as one
\OccursUnder c p m po pr cls pmo pm pmc pmr pi pi1 pi2 pi3 mi nb pc ph ph1 ph2 ph3 q q1 q2 q3 q4 qr qc qm qm1 qm2 qm3 qd lh li li1 li2 li3 li4 lf lim lim1 lim2 lim3 lim4 tr d sp
\StyleType Milestone
\TextType Other

\Marker ts
\Name ts - Border of such a section, one mark alone
\OccursUnder c p m po pr cls pmo pm pmc pmr pi pi1 pi2 pi3 mi nb pc ph ph1 ph2 ph3 q q1 q2 q3 q4 qr qc qm qm1 qm2 qm3 qd lh li li1 li2 li3 li4 lf lim lim1 lim2 lim3 lim4 tr d sp
\StyleType Milestone
\TextType Other

# ---------------------------------------------------------------------------
# Extended study content

\Marker ef
\Endmarker ef*
\Name ef...ef* - Footnote of a study Bible
\OccursUnder p m po pr cls pmo pm pmc pmr pi pi1 pi2 pi3 mi nb pc ph ph1 ph2 ph3 q q1 q2 q3 q4 qr qc qm qm1 qm2 qm3 qd lh li li1 li2 li3 li4 lf lim lim1 lim2 lim3 lim4 tr mt mt1 mt2 mt3 mt4 mte mte1 mte2 ms ms1 ms2 ms3 mr s s1 s2 s3 s4 s5 sr r d sp cl cp cd qa lit imt imt1 imt2 imt3 imt4 is is1 is2 ip ipi im imi ipq imq ipr iq iq1 iq2 iq3 ili ili1 ili2 iot io io1 io2 io3 io4 iex imte imte1 imte2
\StyleType Note
\TextType NoteText

\Marker ex
\Endmarker ex*
\Name ex...ex* - Cross reference of a study Bible
\OccursUnder p m po pr cls pmo pm pmc pmr pi pi1 pi2 pi3 mi nb pc ph ph1 ph2 ph3 q q1 q2 q3 q4 qr qc qm qm1 qm2 qm3 qd lh li li1 li2 li3 li4 lf lim lim1 lim2 lim3 lim4 tr mt mt1 mt2 mt3 mt4 mte mte1 mte2 ms ms1 ms2 ms3 mr s s1 s2 s3 s4 s5 sr r d sp cl cp cd qa lit imt imt1 imt2 imt3 imt4 is is1 is2 ip ipi im imi ipq imq ipr iq iq1 iq2 iq3 ili ili1 ili2 iot io io1 io2 io3 io4 iex imte imte1 imte2
\StyleType Note
\TextType NoteText

\Marker esb
\Name esb - Beginning of a sidebar
\OccursUnder id c periph
\StyleType Paragraph
\TextType Other

\Marker esbe
\Name esbe - End of a sidebar
\OccursUnder id c periph
\StyleType Paragraph
\TextType Other

\Marker cat
\Endmarker cat*
\Name cat...cat* - Category of a note or a sidebar
\OccursUnder esb f fe ef x ex
\StyleType Character
\TextType Other

# ---------------------------------------------------------------------------
# Peripherals

\Marker periph
\Name periph - Part of the pages before, between or after the books, with its title
\OccursUnder id
\StyleType Paragraph
\TextType Section
"#;
