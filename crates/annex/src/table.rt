// The rows, each with its item beside it, written from the pages of specs/ by tools/table.py. The checker computes that they are what the pages say.
pub const TABLE: [u64; 510] = [
    4263008, // syncinfo: element syncword none 16 (cell SYNCWORD)
    1613533322153997, // syncinfo: reject (Differs (cell SYNCWORD) (Word 0x0B77)) 2
    4336704, // bsi_size: element strmtyp none 2 (cell STRMTYP)
    4471888, // bsi_size: element substreamid none 3 (cell SUBSTREAMID)
    4634464, // bsi_size: element frmsiz none 11 (cell FRMSIZ)
    54043195595555355, // bsi_size: reject (Is (cell STRMTYP) 3) 3
    4728704, // bsi: element fscod none 2 (cell FSCOD)
    90071992614519371, // bsi: reject (Is (cell FSCOD) 3) 5
    4860224, // bsi: element numblkscod none 2 (cell NUMBLKSCOD)
    44, // bsi: derive Numblks
    5124096, // bsi: element acmod none 3 (cell ACMOD)
    76, // bsi: derive Nfchans
    5380160, // bsi: element lfeon none 1 (cell LFEON)
    5525904, // bsi: element bsid none 5 (cell BSID)
    21760, // bsi: element dialnorm none 5 no
    5640816, // bsi: element compre none 1 (cell COMPRE)
    18014398526259896, // bsi: when (Is (cell COMPRE) 1)
    33344, // bsi: element compr none 8 no
    72057594046317176, // bsi: when (Is (cell ACMOD) 0)
    21776, // bsi: element dialnorm2 none 5 no
    5771872, // bsi: element compr2e none 1 (cell COMPR2E)
    18014398526259912, // bsi: when (Is (cell COMPR2E) 1)
    33360, // bsi: element compr2 none 8 no
    54043195545223704, // bsi: when (Is (cell STRMTYP) 1)
    5902800, // bsi: element chanmape none 1 (cell CHANMAPE)
    18014398526259928, // bsi: when (Is (cell CHANMAPE) 1)
    65984, // bsi: element chanmap none 16 no
    6035728, // bsi: element mixmdate none 1 (cell MIXMDATE)
    1855483046493422312, // bsi: when (Is (cell MIXMDATE) 1)
    18014948198187640, // mixing_metadata: when (Above (cell ACMOD) 2)
    9536, // mixing_metadata: element dmixmod none 2 no
    36028798428250744, // mixing_metadata: when (Among (cell ACMOD) (3 ∷ 5 ∷ 7 ∷ []))
    14448, // mixing_metadata: element ltrtcmixlev none 3 no
    14416, // mixing_metadata: element lorocmixlev none 3 no
    36029346640560760, // mixing_metadata: when (Above (cell ACMOD) 3)
    14464, // mixing_metadata: element ltrtsurmixlev none 3 no
    14432, // mixing_metadata: element lorosurmixlev none 3 no
    54043195545223832, // mixing_metadata: when (Is (cell LFEON) 1)
    6166576, // mixing_metadata: element lfemixlevcode none 1 (cell LFEMIXLEVCODE)
    18014398526259960, // mixing_metadata: when (Is (cell LFEMIXLEVCODE) 1)
    22560, // mixing_metadata: element lfemixlevcod none 5 no
    1621295865861767704, // mixing_metadata: when (Is (cell STRMTYP) 0)
    6298096, // mixing_metadata: element pgmscle none 1 (cell PGMSCLE)
    18014398526259976, // mixing_metadata: when (Is (cell PGMSCLE) 1)
    27072, // mixing_metadata: element pgmscl none 6 no
    54043195536835192, // mixing_metadata: when (Is (cell ACMOD) 0)
    6429152, // mixing_metadata: element pgmscl2e none 1 (cell PGMSCL2E)
    18014398526259992, // mixing_metadata: when (Is (cell PGMSCL2E) 1)
    27088, // mixing_metadata: element pgmscl2 none 6 no
    6559408, // mixing_metadata: element extpgmscle none 1 (cell EXTPGMSCLE)
    18014398526260008, // mixing_metadata: when (Is (cell EXTPGMSCLE) 1)
    26272, // mixing_metadata: element extpgmscl none 6 no
    6695120, // mixing_metadata: element mixdef none 2 (cell MIXDEF)
    54043195545223992, // mixing_metadata: when (Is (cell MIXDEF) 1)
    6704, // mixing_metadata: element premixcmpsel none 1 no
    5472, // mixing_metadata: element drcsrc none 1 no
    14880, // mixing_metadata: element premixcmpscl none 3 no
    18014398543037240, // mixing_metadata: when (Is (cell MIXDEF) 2)
    51360, // mixing_metadata: element mixdata none 12 no
    954763121069654840, // mixing_metadata: when (Is (cell MIXDEF) 3)
    6838496, // mixdef3: element mixdeflen none 5 (cell MIXDEFLEN)
    6794, // mixdef3: put (cell MIXSTART) Here
    7477424, // mixdef3: element mixdata2e none 1 (cell MIXDATA2E)
    576460752320201624, // mixdef3: when (Is (cell MIXDATA2E) 1)
    6704, // mixdef3: element premixcmpsel none 1 no
    5472, // mixdef3: element drcsrc none 1 no
    14880, // mixdef3: element premixcmpscl none 3 no
    7608960, // mixdef3: element scale_exists none 1 (cell SCALE_EXISTS)
    18014398526260136, // mixdef3: when (Is (cell SCALE_EXISTS) 1)
    18016, // mixdef3: element extpgmlscl none 4 no
    7608960, // mixdef3: element scale_exists none 1 (cell SCALE_EXISTS)
    18014398526260136, // mixdef3: when (Is (cell SCALE_EXISTS) 1)
    17984, // mixdef3: element extpgmcscl none 4 no
    7608960, // mixdef3: element scale_exists none 1 (cell SCALE_EXISTS)
    18014398526260136, // mixdef3: when (Is (cell SCALE_EXISTS) 1)
    18048, // mixdef3: element extpgmrscl none 4 no
    7608960, // mixdef3: element scale_exists none 1 (cell SCALE_EXISTS)
    18014398526260136, // mixdef3: when (Is (cell SCALE_EXISTS) 1)
    18032, // mixdef3: element extpgmlsscl none 4 no
    7608960, // mixdef3: element scale_exists none 1 (cell SCALE_EXISTS)
    18014398526260136, // mixdef3: when (Is (cell SCALE_EXISTS) 1)
    18064, // mixdef3: element extpgmrsscl none 4 no
    7608960, // mixdef3: element scale_exists none 1 (cell SCALE_EXISTS)
    18014398526260136, // mixdef3: when (Is (cell SCALE_EXISTS) 1)
    18000, // mixdef3: element extpgmlfescl none 4 no
    7608960, // mixdef3: element scale_exists none 1 (cell SCALE_EXISTS)
    18014398526260136, // mixdef3: when (Is (cell SCALE_EXISTS) 1)
    17744, // mixdef3: element dmixscl none 4 no
    7737440, // mixdef3: element addche none 1 (cell ADDCHE)
    108086391073670072, // mixdef3: when (Is (cell ADDCHE) 1)
    7608960, // mixdef3: element scale_exists none 1 (cell SCALE_EXISTS)
    18014398526260136, // mixdef3: when (Is (cell SCALE_EXISTS) 1)
    17952, // mixdef3: element extpgmaux1scl none 4 no
    7608960, // mixdef3: element scale_exists none 1 (cell SCALE_EXISTS)
    18014398526260136, // mixdef3: when (Is (cell SCALE_EXISTS) 1)
    17968, // mixdef3: element extpgmaux2scl none 4 no
    7870656, // mixdef3: element mixdata3e none 1 (cell MIXDATA3E)
    162129586602116040, // mixdef3: when (Is (cell MIXDATA3E) 1)
    23360, // mixdef3: element spchdat none 5 no
    7999616, // mixdef3: element addspchdate none 1 (cell ADDSPCHDATE)
    108086391073670104, // mixdef3: when (Is (cell ADDSPCHDATE) 1)
    23376, // mixdef3: element spchdat1 none 5 no
    11040, // mixdef3: element spchan1att none 2 no
    8130672, // mixdef3: element addspchdat1e none 1 (cell ADDSPCHDAT1E)
    36028797035742184, // mixdef3: when (Is (cell ADDSPCHDAT1E) 1)
    23392, // mixdef3: element spchdat2 none 5 no
    15152, // mixdef3: element spchan2att none 3 no
    6922, // mixdef3: put (cell MIXEND) Here
    116551856430026, // mixdef3: put (cell MIXUSED) (Minus (cell MIXEND) MIXSTART)
    4538787489127450, // mixdef3: put (cell MIXBITS) (Let 16 8 (cell MIXDEFLEN))
    31061287377837, // mixdef3: reject (Over (cell MIXUSED) (held MIXBITS)) 20
    120950037175498, // mixdef3: put (cell WIDTH) (Minus (cell MIXBITS) MIXUSED)
    3254554418219171, // mixdef3: span mixdata WIDTH
    162129586610504312, // mixing_metadata: when (Below (cell ACMOD) 2)
    8264080, // mixing_metadata: element paninfoe none 1 (cell PANINFOE)
    36028797035742200, // mixing_metadata: when (Is (cell PANINFOE) 1)
    35232, // mixing_metadata: element panmean none 8 no
    26976, // mixing_metadata: element paninfo none 6 no
    72057594046317176, // mixing_metadata: when (Is (cell ACMOD) 0)
    8395136, // mixing_metadata: element paninfo2e none 1 (cell PANINFO2E)
    36028797035742216, // mixing_metadata: when (Is (cell PANINFO2E) 1)
    35248, // mixing_metadata: element panmean2 none 8 no
    26992, // mixing_metadata: element paninfo2 none 6 no
    8525648, // mixing_metadata: element frmmixcfginfoe none 1 (cell FRMMIXCFGINFOE)
    126100789583152152, // mixing_metadata: when (Is (cell FRMMIXCFGINFOE) 1)
    18014398517871192, // mixing_metadata: when (Is (cell NUMBLKSCOD) 0)
    20784, // mixing_metadata: element blkmixcfginfo none 5 no
    72058143776965208, // mixing_metadata: when (Not (cell NUMBLKSCOD) 0)
    211106232688910, // mixing_metadata: each BLK (from 0) (upto NUMBLKS)
    1168239759681, // mixing_metadata: element blkmixcfginfoe (by BLK) 1 (cell BLKMIXCFGINFOE)
    18014398526260264, // mixing_metadata: when (Is (cell BLKMIXCFGINFOE) 1)
    1168231125297, // mixing_metadata: element blkmixcfginfo (by BLK) 5 no
    8787888, // bsi: element infomdate none 1 (cell INFOMDATE)
    378302368715899960, // bsi: when (Is (cell INFOMDATE) 1)
    12704, // informational_metadata: element bsmod none 3 no
    4816, // informational_metadata: element copyrightb none 1 no
    6480, // informational_metadata: element origbs none 1 no
    36028797052519032, // informational_metadata: when (Is (cell ACMOD) 2)
    9600, // informational_metadata: element dsurmod none 2 no
    9456, // informational_metadata: element dheadphonmod none 2 no
    18014947728425592, // informational_metadata: when (Above (cell ACMOD) 5)
    9584, // informational_metadata: element dsurexmod none 2 no
    8917168, // informational_metadata: element audprodie none 1 (cell AUDPRODIE)
    54043195545224264, // informational_metadata: when (Is (cell AUDPRODIE) 1)
    22768, // informational_metadata: element mixlevel none 5 no
    10848, // informational_metadata: element roomtyp none 2 no
    4112, // informational_metadata: element adconvtyp none 1 no
    90071992555799160, // informational_metadata: when (Is (cell ACMOD) 0)
    9048224, // informational_metadata: element audprodi2e none 1 (cell AUDPRODI2E)
    54043195545224280, // informational_metadata: when (Is (cell AUDPRODI2E) 1)
    22784, // informational_metadata: element mixlevel2 none 5 no
    10864, // informational_metadata: element roomtyp2 none 2 no
    4128, // informational_metadata: element adconvtyp2 none 1 no
    18014398568202824, // informational_metadata: when (Below (cell FSCOD) 3)
    6928, // informational_metadata: element sourcefscod none 1 no
    36028797027353112, // bsi: when (Is (cell STRMTYP) 0)
    18014948189799000, // bsi: when (Not (cell NUMBLKSCOD) 3)
    4800, // bsi: element convsync none 1 no
    108086391090446872, // bsi: when (Is (cell STRMTYP) 2)
    18014398576591448, // bsi: when (Is (cell NUMBLKSCOD) 3)
    2199023264538, // bsi: put (cell BLKID) (number 1)
    18014948189799000, // bsi: when (Not (cell NUMBLKSCOD) 3)
    9179424, // bsi: element blkid none 1 (cell BLKID)
    18014398526260328, // bsi: when (Is (cell BLKID) 1)
    26480, // bsi: element frmsizecod none 6 no
    9310272, // bsi: element addbsie none 1 (cell ADDBSIE)
    54043195545224312, // bsi: when (Is (cell ADDBSIE) 1)
    9461840, // bsi: element addbsil none 6 (cell ADDBSIL)
    4521196645276826, // bsi: put (cell WIDTH) (Let 8 8 (cell ADDBSIL))
    3254554418217011, // bsi: span addbsi WIDTH
    108, // flags: derive Fresh
    36028797086073432, // flags: when (Is (cell NUMBLKSCOD) 3)
    9573904, // flags: element expstre none 1 (cell EXPSTRE)
    9703568, // flags: element ahte none 1 (cell AHTE)
    36029346699280984, // flags: when (Not (cell NUMBLKSCOD) 3)
    2199023264922, // flags: put (cell EXPSTRE) (number 1)
    9498, // flags: put (cell AHTE) (number 0)
    9841408, // flags: element snroffststr none 2 (cell SNROFFSTSTR)
    126100789633483963, // flags: reject (Is (cell SNROFFSTSTR) 3) 7
    9968752, // flags: element transproce none 1 (cell TRANSPROCE)
    10097024, // flags: element blkswe none 1 (cell BLKSWE)
    10229040, // flags: element dithflage none 1 (cell DITHFLAGE)
    10359040, // flags: element bamode none 1 (cell BAMODE)
    10491696, // flags: element frmfgaincode none 1 (cell FRMFGAINCODE)
    10622064, // flags: element dbaflde none 1 (cell DBAFLDE)
    10754752, // flags: element skipflde none 1 (cell SKIPFLDE)
    10886016, // flags: element spxattene none 1 (cell SPXATTENE)
    144115737798115960, // coupling: when (Above (cell ACMOD) 1)
    2199023266330, // coupling: put (cell CPLSTRE) (number 1)
    68731278352, // coupling: element cplinu (nth 0) 1 (cell CPLINUS)
    351845868527886, // coupling: each BLK (from 1) (upto NUMBLKS)
    1168510555201, // coupling: element cplstre (by BLK) 1 (at CPLSTRE BLK)
    18014398526293321, // coupling: when (Is (at CPLSTRE BLK) 1)
    1168511341585, // coupling: element cplinu (by BLK) 1 (at CPLINUS BLK)
    18014398517904713, // coupling: when (Is (at CPLSTRE BLK) 0)
    563093365337370, // coupling: put (at CPLINUS BLK) (copy (at (CPLINUS - 1) BLK))
    140, // coupling: derive Ncplblks
    72057594054706328, // strategies: when (Is (cell EXPSTRE) 1)
    211106232688910, // strategies: each BLK (from 0) (upto NUMBLKS)
    18014398526293417, // strategies: when (Is (at CPLINUS BLK) 1)
    1168512263121, // strategies: element cplexpstr (by BLK) 2 (at CPLEXPSTR BLK)
    108791255735869938, // strategies: elements chexpstr (by BLK) 2 (at2 CHEXPSTR CH BLK) CH 0 NFCHANS
    126100789574763672, // strategies: when (Is (cell EXPSTRE) 0)
    54043745250706040, // strategies: when (Above (cell ACMOD) 1)
    36029346758002184, // strategies: when (Above (cell NCPLBLKS) 0)
    20600592, // strategies: element frmcplexpstr none 5 (cell FRMCPLEXPSTR)
    172, // strategies: derive CplStrategies
    140737488519566, // strategies: each CH (from 0) (upto NFCHANS)
    1718007650049, // strategies: element frmchexpstr (by CH) 5 (cell FRMCHEXPSTR)
    204, // strategies: derive ChStrategies
    18014398526259864, // strategies: when (Is (cell LFEON) 1)
    72727265626953714, // strategies: elements lfeexpstr (by BLK) 1 (at LFEEXPSTR BLK) BLK 0 NUMBLKS
    108086391065281048, // strategies: when (Is (cell STRMTYP) 0)
    18014948189799000, // strategies: when (Not (cell NUMBLKSCOD) 3)
    20845200, // strategies: element convexpstre none 1 (cell CONVEXPSTRE)
    18014398576591448, // strategies: when (Is (cell NUMBLKSCOD) 3)
    2199023275930, // strategies: put (cell CONVEXPSTRE) (number 1)
    18014398526261752, // strategies: when (Is (cell CONVEXPSTRE) 1)
    108791796485608066, // strategies: elements convexpstr (by CH) 5 no CH 0 NFCHANS
    180143985111598248, // hybrid: when (Is (cell AHTE) 1)
    236, // hybrid: derive Regions
    36028797555836424, // hybrid: when (Is (cell NCPLBLKS) 6)
    18014398526261768, // hybrid: when (Is (cell NCPLREGS) 1)
    22549232, // hybrid: element cplahtinu none 1 (cell (AHTINU + 5))
    140737488519566, // hybrid: each CH (from 0) (upto NFCHANS)
    18014398526310937, // hybrid: when (Is (at NCHREGS CH) 1)
    1718411465137, // hybrid: element chahtinu (by CH) 1 (at AHTINU CH)
    36028797035741848, // hybrid: when (Is (cell LFEON) 1)
    18014398526261864, // hybrid: when (Is (cell NLFEREGS) 1)
    22681536, // hybrid: element lfeahtinu none 1 (cell (AHTINU + 6))
    54043195536835768, // offsets: when (Is (cell SNROFFSTSTR) 0)
    40920864, // offsets: element frmcsnroffst none 6 (cell CSNROFFST)
    23742272, // offsets: element frmfsnroffst none 4 (cell FRMFSNROFFST)
    562962129526362, // offsets: fill FSNROFFST 7 0 1 (cell FRMFSNROFFST)
    90071992564188360, // offsets: when (Is (cell TRANSPROCE) 1)
    281474976874894, // offsets: each CH (from 0) (upto NFCHANS)
    1718010778161, // offsets: element chintransproc (by CH) 1 (cell CHINTRANSPROC)
    36028797035744104, // offsets: when (Is (cell CHINTRANSPROC) 1)
    1717986962577, // offsets: element transprocloc (by CH) 10 no
    1717986954369, // offsets: element transproclen (by CH) 8 no
    72057594054706488, // offsets: when (Is (cell SPXATTENE) 1)
    211106232697230, // offsets: each CH (from 0) (upto NFCHANS)
    1718010909217, // offsets: element chinspxatten (by CH) 1 (cell CHINSPXATTEN)
    18014398526262136, // offsets: when (Is (cell CHINSPXATTEN) 1)
    1717986941809, // offsets: element spxattencod (by CH) 5 no
    72058143776965208, // offsets: when (Not (cell NUMBLKSCOD) 0)
    24121696, // offsets: element blkstrtinfoe none 1 (cell BLKSTRTINFOE)
    36028797035744136, // offsets: when (Is (cell BLKSTRTINFOE) 1)
    268, // offsets: derive Blkstrtinfo
    3254554418217299, // offsets: span blkstrtinfo WIDTH
    16958867346972942, // audblks: each BLK (from 0) (upto NUMBLKS)
    565149110894746, // dynamics: put (cell BLOCK) (Let 1 1 (cell BLK))
    285962, // dynamics: put (at BLOCK_STARTS BLK) Here
    18014398526260440, // dynamics: when (Is (cell BLKSWE) 1)
    108791796485591410, // dynamics: elements blksw (by CH) 1 no CH 0 NFCHANS
    18014398526260456, // dynamics: when (Is (cell DITHFLAGE) 1)
    108791796485592354, // dynamics: elements dithflag (by CH) 1 no CH 0 NFCHANS
    25171392, // dynamics: element dynrnge none 1 (cell DYNRNGE)
    18014398526262280, // dynamics: when (Is (cell DYNRNGE) 1)
    34192, // dynamics: element dynrng none 8 no
    54043195536835192, // dynamics: when (Is (cell ACMOD) 0)
    25302448, // dynamics: element dynrng2e none 1 (cell DYNRNG2E)
    18014398526262296, // dynamics: when (Is (cell DYNRNG2E) 1)
    34208, // dynamics: element dynrng2 none 8 no
    18014398517870632, // spx_strategy: when (Is (cell BLK) 0)
    2199023280410, // spx_strategy: put (cell SPXSTRE) (number 1)
    18014948248518696, // spx_strategy: when (Not (cell BLK) 0)
    25435168, // spx_strategy: element spxstre none 1 (cell SPXSTRE)
    342273571696938024, // spx_strategy: when (Is (cell SPXSTRE) 1)
    25566224, // spx_strategy: element spxinu none 1 (cell SPXINU)
    252201579149528120, // spx_strategy: when (Is (cell SPXINU) 1)
    18014398526259832, // spx_strategy: when (Is (cell ACMOD) 1)
    2199023280666, // spx_strategy: put (cell CHINSPX) (number 1)
    18014948240130680, // spx_strategy: when (Not (cell ACMOD) 1)
    108791796913934866, // spx_strategy: elements chinspx (by CH) 1 (at CHINSPX CH) CH 0 NFCHANS
    11312, // spx_strategy: element spxstrtf none 2 no
    26360720, // spx_strategy: element spxbegf none 3 (cell SPXBEGF)
    26491904, // spx_strategy: element spxendf none 3 (cell SPXENDF)
    300, // spx_strategy: derive SpxRange
    112425152046573, // spx_strategy: reject (AtLeast (cell SPX_BEGIN) (held SPX_END)) 21
    26876864, // spx_strategy: element spxbndstrce none 1 (cell SPXBNDSTRCE)
    36028797035744472, // spx_strategy: when (Is (cell SPXBNDSTRCE) 1)
    84320946274830, // spx_strategy: each BND (after SPX_BEGIN) (upto SPX_END)
    2268306611121, // spx_strategy: element spxbndstrc (by BND) 1 (at SPXBNDSTRC BND)
    332, // spx_strategy: derive Nspxbnds
    36028797027355704, // spx_strategy: when (Is (cell SPXINU) 0)
    20996698, // spx_strategy: fill CHINSPX 5 0 0 no
    2199044255962, // spx_strategy: fill FIRSTSPXCOS 5 1 0 no
    288230376168492088, // spx_coordinates: when (Is (cell SPXINU) 1)
    565163941982106, // spx_coordinates: put (cell SPX_BLOCKS) (Let 1 1 (cell SPX_BLOCKS))
    985162418651534, // spx_coordinates: each CH (from 0) (upto NFCHANS)
    198158383621131337, // spx_coordinates: when (Is (at CHINSPX CH) 1)
    18014398517923353, // spx_coordinates: when (Is (at FIRSTSPXCOS CH) 0)
    1718017072081, // spx_coordinates: element spxcoe (by CH) 1 (cell SPXCOE)
    36028797035793945, // spx_coordinates: when (Is (at FIRSTSPXCOS CH) 1)
    2199023285018, // spx_coordinates: put (cell SPXCOE) (number 1)
    422042, // spx_coordinates: put (at FIRSTSPXCOS CH) (number 0)
    90071992564190824, // spx_coordinates: when (Is (cell SPXCOE) 1)
    1717986941857, // spx_coordinates: element spxblnd (by CH) 5 no
    1717986928945, // spx_coordinates: element mstrspxco (by CH) 2 no
    140737489273358, // spx_coordinates: each BND (from 0) (upto NSPXBNDS)
    1717986937825, // spx_coordinates: element spxcoexp (by CH) 4 no
    1717986929649, // spx_coordinates: element spxcomant (by CH) 2 no
    18014398517922889, // spx_coordinates: when (Is (at CHINSPX CH) 0)
    2199023677594, // spx_coordinates: put (at FIRSTSPXCOS CH) (number 1)
    563093432202138, // cpl_strategy: put (cell CPLINU) (copy (at CPLINUS BLK))
    468374361263342921, // cpl_strategy: when (Is (at CPLSTRE BLK) 1)
    360287970206420600, // cpl_strategy: when (Is (cell CPLINU) 1)
    30414288, // cpl_strategy: element ecplinu none 1 (cell ECPLINU)
    162129586602118795, // cpl_strategy: reject (Is (cell ECPLINU) 1) 9
    36028797052519032, // cpl_strategy: when (Is (cell ACMOD) 2)
    2199031674074, // cpl_strategy: fill CHINCPL 2 1 0 no
    31201808, // cpl_strategy: element phsflginu none 1 (cell PHSFLGINU)
    36029346732835448, // cpl_strategy: when (Not (cell ACMOD) 2)
    108791796918784514, // cpl_strategy: elements chincpl (by CH) 1 (at CHINCPL CH) CH 0 NFCHANS
    30490, // cpl_strategy: put (cell PHSFLGINU) (number 0)
    31343360, // cpl_strategy: element cplbegf none 4 (cell CPLBEGF)
    18014398517873720, // cpl_strategy: when (Is (cell SPXINU) 0)
    31474608, // cpl_strategy: element cplendf none 4 (cell CPLENDF)
    364, // cpl_strategy: derive CplRange
    132766121359341, // cpl_strategy: reject (AtLeast (cell CPLBEGF) (held CPL_SUBND_END)) 22
    525582731344202, // cpl_strategy: put (cell NCPLSUBND) (Minus (cell CPL_SUBND_END) CPLBEGF)
    31855392, // cpl_strategy: element cplbndstrce none 1 (cell CPLBNDSTRCE)
    54043195545227064, // cpl_strategy: when (Is (cell CPLBNDSTRCE) 1)
    140739636830734, // cpl_strategy: each BND (from 1) (upto NCPLSUBND)
    525566826513338, // cpl_strategy: put (cell SUB) (Plus (cell BND) CPLBEGF)
    2268714242833, // cpl_strategy: element cplbndstrc (by BND) 1 (at CPLBNDSTRC SUB)
    396, // cpl_strategy: derive Ncplbnd
    72057594046320248, // cpl_strategy: when (Is (cell CPLINU) 0)
    21001434, // cpl_strategy: fill CHINCPL 5 0 0 no
    2199044260954, // cpl_strategy: fill FIRSTCPLCOS 5 1 0 no
    2199023290010, // cpl_strategy: put (cell FIRSTCPLLEAK) (number 1)
    30490, // cpl_strategy: put (cell PHSFLGINU) (number 0)
    378302368715902584, // cpl_coordinates: when (Is (cell CPLINU) 1)
    565166626341786, // cpl_coordinates: put (cell CPL_BLOCKS) (Let 1 1 (cell CPL_BLOCKS))
    21006170, // cpl_coordinates: fill CPLCOE 5 0 0 no
    914793674473870, // cpl_coordinates: each CH (from 0) (upto NFCHANS)
    180143985111649945, // cpl_coordinates: when (Is (at CHINCPL CH) 1)
    18014398517923977, // cpl_coordinates: when (Is (at FIRSTCPLCOS CH) 0)
    1718424965937, // cpl_coordinates: element cplcoe (by CH) 1 (at CPLCOE CH)
    36028797035794569, // cpl_coordinates: when (Is (at FIRSTCPLCOS CH) 1)
    2199023683354, // cpl_coordinates: put (at CPLCOE CH) (number 1)
    427034, // cpl_coordinates: put (at FIRSTCPLCOS CH) (number 0)
    72057594054758633, // cpl_coordinates: when (Is (at CPLCOE CH) 1)
    1717986928929, // cpl_coordinates: element mstrcplco (by CH) 2 no
    140737489429006, // cpl_coordinates: each BND (from 0) (upto NCPLBND)
    1717986935617, // cpl_coordinates: element cplcoexp (by CH) 4 no
    1717986935633, // cpl_coordinates: element cplcomant (by CH) 4 no
    18014398517923481, // cpl_coordinates: when (Is (at CHINCPL CH) 0)
    2199023682586, // cpl_coordinates: put (at FIRSTCPLCOS CH) (number 1)
    72057594071483000, // cpl_coordinates: when (Is (cell ACMOD) 2)
    54043195545226984, // cpl_coordinates: when (Is (cell PHSFLGINU) 1)
    595953421683130, // cpl_coordinates: put (cell PHSFLGE) (Plus (cell CPLCOE) (CPLCOE + 1))
    18014948248523064, // cpl_coordinates: when (Above (cell PHSFLGE) 0)
    148726608562231810, // cpl_coordinates: elements phsflg (by BND) 1 no BND 0 NCPLBND
    126100789599928952, // rematrixing: when (Is (cell ACMOD) 2)
    18014398517870632, // rematrixing: when (Is (cell BLK) 0)
    2199023290906, // rematrixing: put (cell REMATSTR) (number 1)
    18014948248518696, // rematrixing: when (Not (cell BLK) 0)
    36182608, // rematrixing: element rematstr none 1 (cell REMATSTR)
    36028797035745608, // rematrixing: when (Is (cell REMATSTR) 1)
    428, // rematrixing: derive Nrematbd
    148990491352898114, // rematrixing: elements rematflg (by BND) 1 no BND 0 NREMATBD
    422212465230222, // bandwidth: each CH (from 0) (upto NFCHANS)
    90072542287545977, // bandwidth: when (Not (at2 CHEXPSTR CH BLK) 0)
    72057594046369433, // bandwidth: when (Is (at CHINCPL CH) 0)
    54043195536886857, // bandwidth: when (Is (at CHINSPX CH) 0)
    1718426034657, // bandwidth: element chbwcod (by CH) 6 (at CHBWCOD CH)
    32985391205165, // bandwidth: reject (Over (at CHBWCOD CH) (Word 60)) 10
    2199023685018, // bandwidth: put (at CHBWSENT CH) (number 1)
    460, // bandwidth: derive Endmants
    144115188092636792, // exponents_of_block: when (Is (cell CPLINU) 1)
    72058143776998937, // exponents_of_block: when (Not (at CPLEXPSTR BLK) 0)
    68758160096, // exponents_of_block: element cplabsexp (nth 0) 4 (cell ABSEXP)
    68719498191, // exponents_of_block: exponents (slot 5) cplexps (nth 0)
    562969280812058, // exponents_of_block: put (cell HELDSTRT) (copy (cell CPLSTRT))
    562969347921690, // exponents_of_block: put (cell (HELDEND + 5)) (copy (cell CPLEND))
    36028797027386905, // exponents_of_block: when (Is (at CPLEXPSTR BLK) 0)
    158604653007885, // exponents_of_block: reject (Differs (cell HELDSTRT) (held CPLSTRT)) 24
    159154408822541, // exponents_of_block: reject (Differs (cell (HELDEND + 5)) (held CPLEND)) 24
    492581209407886, // exponents_of_block: each CH (from 0) (upto NFCHANS)
    72058143778063993, // exponents_of_block: when (Not (at2 CHEXPSTR CH BLK) 0)
    1718025602561, // exponents_of_block: element exps_ch_0 (by CH) 4 (cell ABSEXP)
    1717987018239, // exponents_of_block: exponents (slot_of CH) exps_ch (by CH)
    1717986928545, // exponents_of_block: element gainrng (by CH) 2 no
    563175573853338, // exponents_of_block: put (at HELDEND CH) (copy (at ENDMANT CH))
    18014398518969977, // exponents_of_block: when (Is (at2 CHEXPSTR CH BLK) 0)
    1848554029487245, // exponents_of_block: reject (Differs (at HELDEND CH) (Cell (at ENDMANT CH))) 25
    108086391073669784, // exponents_of_block: when (Is (cell LFEON) 1)
    54043745267517817, // exponents_of_block: when (Not (at LFEEXPSTR BLK) 0)
    68758161376, // exponents_of_block: element lfeexps_0 (nth 0) 4 (cell ABSEXP)
    68719503327, // exponents_of_block: exponents (slot 6) lfeexps (nth 0)
    15393162827674, // exponents_of_block: put (cell (HELDEND + 6)) (number 7)
    18014398517905785, // exponents_of_block: when (Is (at LFEEXPSTR BLK) 0)
    468374361254925051, // exponents_of_block: reject (Is (cell (HELDEND + 6)) 0) 26
    144115188092634360, // parameters: when (Is (cell BAMODE) 1)
    39850224, // parameters: element baie none 1 (cell BAIE)
    108086391073673992, // parameters: when (Is (cell BAIE) 1)
    40118928, // parameters: element sdcycod none 2 (cell SDCYCOD)
    40249024, // parameters: element fdcycod none 2 (cell FDCYCOD)
    40381088, // parameters: element sgaincod none 2 (cell SGAINCOD)
    40510592, // parameters: element dbpbcod none 2 (cell DBPBCOD)
    40646384, // parameters: element floorcod none 3 (cell FLOORCOD)
    2199023294618, // parameters: put (cell BAI_SENT) (number 1)
    18014398517871864, // parameters: when (Is (cell BAMODE) 0)
    492, // parameters: derive Defaults
    270216527381267640, // parameters: when (Not (cell SNROFFSTSTR) 0)
    18014398517870632, // parameters: when (Is (cell BLK) 0)
    2199023295386, // parameters: put (cell SNROFFSTE) (number 1)
    18014948248518696, // parameters: when (Not (cell BLK) 0)
    40770288, // parameters: element snroffste none 1 (cell SNROFFSTE)
    180143985111602040, // parameters: when (Is (cell SNROFFSTE) 1)
    40920160, // parameters: element csnroffst none 6 (cell CSNROFFST)
    36028797035742392, // parameters: when (Is (cell SNROFFSTSTR) 1)
    41304336, // parameters: element blkfsnroffst none 4 (cell BLKFSNROFFST)
    562971122114138, // parameters: fill FSNROFFST 7 0 1 (cell BLKFSNROFFST)
    90071992580965560, // parameters: when (Is (cell SNROFFSTSTR) 2)
    18014398526262904, // parameters: when (Is (cell CPLINU) 1)
    42091520, // parameters: element cplfsnroffst none 4 (cell (FSNROFFST + 5))
    108791796929677202, // parameters: elements fsnroffst (by CH) 4 (at FSNROFFST CH) CH 0 NFCHANS
    18014398526259864, // parameters: when (Is (cell LFEON) 1)
    42223632, // parameters: element lfefsnroffst none 4 (cell (FSNROFFST + 6))
    18014398526260488, // parameters: when (Is (cell FRMFGAINCODE) 1)
    42342112, // parameters: element fgaincode none 1 (cell FGAINCODE)
    18014398517871880, // parameters: when (Is (cell FRMFGAINCODE) 0)
    41370, // parameters: put (cell FGAINCODE) (number 0)
    90071992564192312, // parameters: when (Is (cell FGAINCODE) 1)
    18014398526262904, // parameters: when (Is (cell CPLINU) 1)
    43135968, // parameters: element cplfgaincod none 3 (cell (FGAINCOD + 5))
    108791796930721490, // parameters: elements fgaincod (by CH) 3 (at FGAINCOD CH) CH 0 NFCHANS
    18014398526259864, // parameters: when (Is (cell LFEON) 1)
    43268096, // parameters: element lfefgaincod none 3 (cell (FGAINCOD + 6))
    18014398517875768, // parameters: when (Is (cell FGAINCODE) 0)
    8796122423898, // parameters: fill FGAINCOD 7 4 0 no
    54043195536835096, // parameters: when (Is (cell STRMTYP) 0)
    43389616, // parameters: element convsnroffste none 1 (cell CONVSNROFFSTE)
    18014398526264504, // parameters: when (Is (cell CONVSNROFFSTE) 1)
    41632, // parameters: element convsnroffst none 10 no
    144115188092636792, // parameters: when (Is (cell CPLINU) 1)
    18014398517874904, // parameters: when (Is (cell FIRSTCPLLEAK) 0)
    43521056, // parameters: element cplleake none 1 (cell CPLLEAKE)
    36028797035745496, // parameters: when (Is (cell FIRSTCPLLEAK) 1)
    2199023298074, // parameters: put (cell CPLLEAKE) (number 1)
    34458, // parameters: put (cell FIRSTCPLLEAK) (number 0)
    36028797035746504, // parameters: when (Is (cell CPLLEAKE) 1)
    41038832, // parameters: element cplfleak none 3 (cell CPLFLEAK)
    41169968, // parameters: element cplsleak none 3 (cell CPLSLEAK)
    612489549339165976, // deltas: when (Is (cell DBAFLDE) 1)
    43652272, // deltas: element deltbaie none 1 (cell DELTBAIE)
    576460752320206040, // deltas: when (Is (cell DELTBAIE) 1)
    108086391073672824, // deltas: when (Is (cell CPLINU) 1)
    44442480, // deltas: element cpldeltbae none 2 (cell (DELTBAE + 5))
    216172782180898107, // deltas: reject (Is (cell (DELTBAE + 5)) 3) 12
    18014398517870632, // deltas: when (Is (cell BLK) 0)
    504403158273889595, // deltas: reject (Is (cell (DELTBAE + 5)) 0) 28
    18014398543041848, // deltas: when (Is (cell (DELTBAE + 5)) 2)
    44314, // deltas: put (cell (DELTNSEG + 5)) (number 0)
    422212465230222, // deltas: each CH (from 0) (upto NFCHANS)
    1718433359009, // deltas: element deltbae (by CH) 2 (at DELTBAE CH)
    216172782180947179, // deltas: reject (Is (at DELTBAE CH) 3) 12
    18014398517870632, // deltas: when (Is (cell BLK) 0)
    504403158273938667, // deltas: reject (Is (at DELTBAE CH) 0) 28
    18014398543090921, // deltas: when (Is (at DELTBAE CH) 2)
    436890, // deltas: put (at DELTNSEG CH) (number 0)
    144115188092636792, // deltas: when (Is (cell CPLINU) 1)
    126100789583156536, // deltas: when (Is (cell (DELTBAE + 5)) 1)
    10995116278554, // deltas: put (cell SLOT) (number 5)
    412361438096, // deltas: element cpldeltnseg (nth 5) 3 (cell NSEG)
    565171793734938, // deltas: put (cell (DELTNSEG + 5)) (Let 1 1 (cell NSEG))
    211106233950862, // deltas: each SEG (from 0) (upto (DELTNSEG + 5))
    438803256225, // deltas: element cpldeltoffst (nth 5) 5 (at2 DELTOFFST SEG SLOT)
    438809543553, // deltas: element cpldeltlen (nth 5) 4 (at2 DELTLEN SEG SLOT)
    438815830881, // deltas: element cpldeltba (nth 5) 3 (at2 DELTBA SEG SLOT)
    562949953585550, // deltas: each CH (from 0) (upto NFCHANS)
    126100789583205609, // deltas: when (Is (at DELTBAE CH) 1)
    562950154748698, // deltas: put (cell SLOT) (copy (cell CH))
    1718031496401, // deltas: element deltnseg (by CH) 3 (cell NSEG)
    565171794127514, // deltas: put (at DELTNSEG CH) (Let 1 1 (cell NSEG))
    211106246513294, // deltas: each SEG (from 0) (Held (at DELTNSEG CH))
    1744473314529, // deltas: element deltoffst (by CH) 5 (at2 DELTOFFST SEG SLOT)
    1744479601857, // deltas: element deltlen (by CH) 4 (at2 DELTLEN SEG SLOT)
    1744485889169, // deltas: element deltba (by CH) 3 (at2 DELTBA SEG SLOT)
    90071992564188456, // skip_field: when (Is (cell SKIPFLDE) 1)
    64363232, // skip_field: element skiple none 1 (cell SKIPLE)
    54043195545231032, // skip_field: when (Is (cell SKIPLE) 1)
    64527056, // skip_field: element skipl none 9 (cell SKIPL)
    4503632644955290, // skip_field: put (cell WIDTH) (Let 0 8 (cell SKIPL))
    3254554418219699, // skip_field: span skipfld WIDTH
    524, // quantized: derive Allocation
    325258, // quantized: put (at MANTISSA_STARTS BLK) Here
    65407124, // quantized: mantissas mantissas-of-block (cell TAGS)
    556, // quantized: derive AhtRead
    154, // audblks: put (cell BLOCK) (number 0)
    71178, // audblks: put (cell AUDIO_END) Here
    71434, // tail: put (cell AFTER_AUDIO) Here
    1227092356306762, // tail: put (cell AFTER_AUDIO) (Minus (cell FRAME_END) AFTER_AUDIO)
    600370728474666, // tail: put (cell AFTER_AUXDATAE) (Less 17 1 (cell FRAME_END))
    9895730550605, // tail: reject (Under (cell AFTER_AUDIO) (Word 18)) 30
    90071992564196088, // tail: when (Is (cell AUXDATAE) 1)
    17742639994701, // tail: reject_at (Under (cell AFTER_AUDIO) (Word 32)) 31 AFTER_AUXDATAE
    633356144368810, // tail: put (cell WIDTH) (Less 32 1 (cell AFTER_AUDIO))
    3254554418217155, // tail: span auxbits WIDTH
    73588960, // tail: element auxdatal none 14 (cell AUXDATAL)
    102130161621165, // tail: reject_at (Over (cell AUXDATAL) (held WIDTH)) 32 AFTER_AUXDATAE
    36029346749620984, // tail: when (Not (cell AUXDATAE) 1)
    602569818791082, // tail: put (cell WIDTH) (Less 18 1 (cell AFTER_AUDIO))
    3254554418217155, // tail: span auxbits WIDTH
    4304, // tail: element auxdatae none 1 no
    5600, // tail: element encinfo none 1 no
    66640, // tail: element crc2 none 16 no
];
